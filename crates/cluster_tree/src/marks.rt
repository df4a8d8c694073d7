// The mark files of runs that aren't finished.
ghost use Rattle.std.specs.Prelude.{◌≡◌, ◌≤◌, ◌↔◌, [], ◌∷◌, length, IfOk, IfErr, IfSome, IsErrOf, IsTrue};
ghost use Rattle.std.specs.Option.{option_copied};
ghost use Rattle.cluster_tree.specs.Causes.{IsAmong};
ghost use Rattle.cluster_tree.specs.Frame.{Reads};
ghost use Rattle.cluster_tree.specs.Tree.{RefusesOnly, Counts};
ghost use Rattle.cluster_tree.specs.Marks.{marks_of, is_there, first_mark, mark_at};

use crate::{Kind, Path, PathFault, Tree, TreeFault};
use std::alloc::Global;
use std::marker::Model;

/// The paths of the mark files below a root: `pg_rewind.unfinished`, `pg_walreplay.unfinished` and
/// `pg_resetwal.unfinished`.
#[derive(Debug, Drop)]
pub struct Marks {
    rewind: Path,
    replay: Path,
    reset: Path,
}

impl Model for Marks {
    ghost use Rattle.cluster_tree.specs.Marks.{MarkPaths};

    ghost Value = { MarkPaths };

    ghost view = { λ m. record { rewind = m.rewind; replay = m.replay; reset = m.reset } };
}

impl Marks {
    /// The mark files below a root. Answers `TooDeep` where the root has 64 parts, and
    /// `OutOfMemory`.
    pub fn new(alloc: Global, root: &Path) -> Result<Marks, PathFault>
        ensures marks { IfOk result (λ marks. marks ≡ marks_of root.now) }
        ensures too_deep { IsErrOf result PathFault.TooDeep ↔ (64 ≤ length root.now.parts) }
        ensures row { IfErr result (IsAmong (PathFault.TooDeep ∷ PathFault.OutOfMemory ∷ [])) }
    {
        Ok(Marks {
            rewind: root.join(alloc, "pg_rewind.unfinished")?,
            replay: root.join(alloc, "pg_walreplay.unfinished")?,
            reset: root.join(alloc, "pg_resetwal.unfinished")?,
        })
    }

    /// The path of the mark file of a number, or `None` above 2.
    pub fn path(&self, number: u8) -> Option<&Path>
        ensures { option_copied result ≡ mark_at self.now number }
    {
        match number {
            0 => Some(&self.rewind),
            1 => Some(&self.replay),
            2 => Some(&self.reset),
            _ => None,
        }
    }
}

/// The number of the first mark file that is there: 0, 1 or 2 in the order of the names above, or
/// `None`. A folder or a link of such a name counts as the mark. Of the faults it answers `Failed`
/// alone.
pub fn mark_present<F: Tree>(tree: &mut F, marks: &Marks) -> Result<Option<u8>, TreeFault>
    ensures first { IsTrue F.tells →
        IfOk result (λ mark. first_mark (F.contents tree.old) marks.now ≡ mark) }
    ensures known { IfOk result (λ mark. IfSome mark (λ number. number ≤ 2)) }
    ensures row { RefusesOnly [] result }
    ensures cause { Counts F.failed_reads F.failed_changes tree.old tree.new result }
    ensures reads { Reads F.Tree tree.old tree.new }
{
    if is_there(tree, &marks.rewind)? {
        return Ok(Some(0));
    }
    if is_there(tree, &marks.replay)? {
        return Ok(Some(1));
    }
    if is_there(tree, &marks.reset)? {
        return Ok(Some(2));
    }
    Ok(None)
}

// Whether anything stands at a path.
fn is_there<F: Tree>(tree: &mut F, path: &Path) -> Result<bool, TreeFault>
    ensures there { IsTrue F.tells →
        IfOk result (λ there. is_there (F.contents tree.old) path.now ≡ there) }
    ensures row { RefusesOnly [] result }
    ensures cause { Counts F.failed_reads F.failed_changes tree.old tree.new result }
    ensures reads { Reads F.Tree tree.old tree.new }
{
    match tree.kind(path) {
        Ok(Kind::Absent) => Ok(false),
        Ok(Kind::File | Kind::Folder) | Err(TreeFault::Link) => Ok(true),
        Err(fault) => Err(fault),
    }
}
