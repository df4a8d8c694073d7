// Two roots, of which neither holds the other.
ghost use Rattle.std.specs.Prelude.{◌≡◌, IfOk};
ghost use Rattle.cluster_tree.specs.Apart.{overlap};
ghost use Rattle.cluster_tree.specs.Causes.{Meets};
ghost use Rattle.commands.specs.Faults.{IsFree};
ghost use Rattle.commands.specs.Fit.{AreFitRoots, IsFitRoot};
ghost use Rattle.tool_words.specs.Command.{climbs, roots_apart, two_roots};

use crate::paths::{MOST_OF_ROOT, path_read};
use cluster_tree::{Path, PathFault};
use commands::CommandFault;
use std::alloc::Global;

// Whether one of two roots holds the other.
#[tactic(auto, unfolding(cluster_tree::specs::Apart::overlap))]
fn overlaps(first: &Path, second: &Path) -> bool
    ensures { result ≡ overlap first.now second.now }
{
    let first_holds = first.holds(second);
    let second_holds = second.holds(first);
    first_holds || second_holds
}

// Two roots, where neither holds the other.
#[tactic(auto, using(cluster_tree::proofs::HoldLemmas::hold_steps))]
fn roots_apart(first: Path, second: Path) -> Result<(Path, Path), CommandFault>
    requires first { IsFitRoot first }
    requires second { IsFitRoot second }
    ensures answer { result ≡ roots_apart first second }
    ensures fit { IfOk result (λ roots. AreFitRoots roots.0 roots.1) }
{
    if overlaps(&first, &second) {
        return Err(CommandFault::PathsOverlap);
    }
    Ok((first, second))
}

// Whether the text of a path is refused for a part `..`.
fn climbs(read: &Result<Path, PathFault>) -> bool
    ensures { result ≡ climbs read.now }
{
    match read {
        Err(PathFault::DotDot) => true,
        _ => false,
    }
}

/// The two roots that texts name. A part `..` of either is told first, then the depth of the first,
/// then that of the second, and then that one holds the other.
#[tactic(auto, using(crate::proofs::RootLemmas::climb_steps), unfolding(crate::specs::Command::two_roots))]
pub(crate) fn two_roots(
    alloc: Global,
    first: &str,
    second: &str,
) -> Result<(Path, Path), CommandFault>
    ensures answer { Meets IsFree (two_roots first.now second.now) result }
    ensures fit { IfOk result (λ roots. AreFitRoots roots.0 roots.1) }
{
    let of_first = Path::parse(alloc, first);
    let of_second = Path::parse(alloc, second);
    let first_climbs = climbs(&of_first);
    let second_climbs = climbs(&of_second);
    if first_climbs || second_climbs {
        return Err(CommandFault::DotDot);
    }
    let first = path_read(alloc, MOST_OF_ROOT, first, of_first)?;
    let second = path_read(alloc, MOST_OF_ROOT, second, of_second)?;
    roots_apart(first, second)
}
