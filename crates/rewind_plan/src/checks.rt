// Why a rewind is refused for what was found on both sides.
ghost use Rattle.std.specs.Prelude.{◌≡◌, ◌+◌, ◌≤◌, nat_lt, length, None};
ghost use Rattle.std.specs.Option.{option_copied};
ghost use Rattle.rewind_plan.specs.Between.{between};
ghost use Rattle.rewind_plan.specs.Checks.{first_difference, is_difference};
ghost use Rattle.rewind_plan.specs.Planned.{action_of};
ghost use Rattle.rewind_plan.specs.Room.{AllHaveRoom, first_lacking, is_past, lacks_room, makes};

use crate::roots::Clusters;
use cluster_tree::Path;
use file_walk::{Action, Pair, decide};

const MAX_PARTS: usize = 64;

fn action_of(pair: &Pair) -> Action
    ensures { result ≡ action_of pair.now }
{
    decide(&pair.path, pair.target.as_ref(), pair.source.as_ref())
}

// Whether an action makes something.
fn makes(action: Action) -> bool
    ensures { result ≡ makes action }
{
    matches!(action, Action::MakeFolder | Action::Copy)
}

// Whether a path below a root has more than 64 parts.
fn is_past(root: &Path, pair: &Pair) -> bool
    ensures { result ≡ is_past root.now pair.now }
{
    root.len() + pair.path.len() > MAX_PARTS
}

// Whether the steps of a pair would name such a path.
fn lacks_room(clusters: &Clusters<'_>, pair: &Pair) -> bool
    ensures { result ≡ lacks_room (between clusters.now) pair.now }
{
    let in_target = pair.target.is_some() || makes(action_of(pair));
    (in_target && is_past(clusters.target, pair))
        || (pair.source.is_some() && is_past(clusters.source, pair))
}

/// The first path from the roots on that would have more than 64 parts, those of a root included,
/// where the plan names it: on a side that has it, or in the target where it is made.
pub fn first_lacking<'a>(clusters: &Clusters<'_>, pairs: &'a [Pair]) -> Option<&'a Path>
    ensures value { option_copied result ≡ first_lacking (between clusters.now) pairs.now }
    ensures room { option_copied result ≡ None → AllHaveRoom (between clusters.now) pairs.now }
{
    for pair in pairs {
        if lacks_room(clusters, pair) {
            return Some(&pair.path);
        }
    }
    None
}

/// The first path from the roots on with a file on one side and a folder on the other.
pub fn first_difference(pairs: &[Pair]) -> Option<&Path>
    ensures value { option_copied result ≡ first_difference pairs.now }
{
    for pair in pairs {
        if action_of(pair) == Action::KindsDiffer {
            return Some(&pair.path);
        }
    }
    None
}
