// The end of a replay: the mark's second gate is opened, and the copies and the mark are removed.
ghost use Rattle.std.specs.Prelude.{◌≡◌, ◌≢◌, ◌≤◌, Err, IfErr, IsErrOf, IsTrue, OnOk, length};
ghost use Rattle.cluster_tree.specs.Causes.{Rose};
ghost use Rattle.cluster_tree.specs.Frame.{Came, moment_of};
ghost use Rattle.cluster_tree.specs.PathValue.{PathValue};
ghost use Rattle.cluster_tree.specs.Stops.{LeavesOnly};
ghost use Rattle.marked_runs.specs.Moments.{StandsSynced};
ghost use Rattle.replay_copies.specs.Calls.{LaysOnly};
ghost use Rattle.replay_copies.specs.Left.{HasFile, IsKept, LeavesFile};
ghost use Rattle.replay_copies.specs.Ended.{Clears, Ends, HasMark, IsClearLeft, IsEndLeft, IsGone};
ghost use Rattle.replay_copies.specs.Laid.{SameElsewhere, mark_of};
ghost use Rattle.stored_replay.specs.Shadows.{shadow_folder};

use crate::marking::{finish_mark, open_mark};
use cluster_tree::{FileFault, Path, Tree};
use file_edits::remove_tree;
use std::alloc::Global;
use stored_replay::shadow_folder;

// Removes the copies, and then the mark, each synced before the next.
fn clear<F: Tree>(
    alloc: Global,
    tree: &mut F,
    root: &Path,
    mark: &Path,
    folder: &Path,
) -> Result<(), FileFault>
    requires mark { mark.now ≡ mark_of root.now }
    requires folder { folder.now ≡ shadow_folder root.now }
    ensures clears { IsTrue F.tells → HasFile root.now (F.contents tree.old) →
        Clears root.now (moment_of F.Tree tree.old) (moment_of F.Tree tree.new) result }
    ensures calls { IsTrue F.tells → HasFile root.now (F.contents tree.old) →
        LaysOnly root.now (F.calls tree.old) (F.calls tree.new) }
    ensures frame { Came F.Tree tree.old tree.new }
    ensures read_fault { IsErrOf result FileFault.ReadFault →
        Rose (F.failed_reads tree.old) (F.failed_reads tree.new) }
    ensures write_fault { IsErrOf result FileFault.WriteFault →
        Rose (F.failed_changes tree.old) (F.failed_changes tree.new) }
{
    remove_tree(alloc, tree, folder)?;
    finish_mark(alloc, tree, mark)
}

// Opens the second gate, and removes both.
fn end<F: Tree>(
    alloc: Global,
    tree: &mut F,
    root: &Path,
    mark: &Path,
    folder: &Path,
) -> Result<(), FileFault>
    requires mark { mark.now ≡ mark_of root.now }
    requires folder { folder.now ≡ shadow_folder root.now }
    ensures ends { IsTrue F.tells → HasMark root.now (F.contents tree.old) →
        Ends root.now (moment_of F.Tree tree.old) (moment_of F.Tree tree.new) result }
    ensures calls { IsTrue F.tells → HasMark root.now (F.contents tree.old) →
        LaysOnly root.now (F.calls tree.old) (F.calls tree.new) }
    ensures frame { Came F.Tree tree.old tree.new }
    ensures read_fault { IsErrOf result FileFault.ReadFault →
        Rose (F.failed_reads tree.old) (F.failed_reads tree.new) }
    ensures write_fault { IsErrOf result FileFault.WriteFault →
        Rose (F.failed_changes tree.old) (F.failed_changes tree.new) }
{
    open_mark(alloc, tree, mark, 16)?;
    clear(alloc, tree, root, mark, folder)
}

/// Removes the copies of a replay with all that stands at their folder, and then its mark, each
/// synced before the next: for a start over the mark of a replay that had ended. It refuses as
/// `begin_copies`.
pub fn clear_copies<F: Tree>(alloc: Global, tree: &mut F, root: &Path) -> Result<(), FileFault>
    requires room { length root.now.parts ≤ 61 }
    ensures done { IsTrue F.tells → HasFile root.now (F.contents tree.old) →
        OnOk result (IsGone root.now (F.contents tree.new)) }
    ensures refused { IsTrue F.tells → HasFile root.now (F.contents tree.old) →
        IfErr result (IsKept root.now (F.contents tree.old)) }
    // where the folder of copies can't be removed, the mark stays
    ensures stands { IsTrue F.tells → HasFile root.now (F.contents tree.old) →
        IfErr result (LeavesFile root.now (F.contents tree.new)) }
    ensures elsewhere { IsTrue F.tells → HasFile root.now (F.contents tree.old) →
        SameElsewhere root.now (F.contents tree.old) (F.contents tree.new) }
    // a stop at any moment leaves all but the copies, or nothing of both
    ensures stops { IsTrue F.tells → HasFile root.now (F.contents tree.old) →
        StandsSynced (F.contents tree.old) (moment_of F.Tree tree.old) → LeavesOnly
        (IsClearLeft root.now (F.contents tree.old)) (F.stops tree.old) (F.stops tree.new) }
    ensures synced { IsTrue F.tells → HasFile root.now (F.contents tree.old) →
        OnOk result (StandsSynced (F.contents tree.new) (moment_of F.Tree tree.new)) }
    // each changing call is a sync, or at the mark or the copies
    ensures calls { IsTrue F.tells → HasFile root.now (F.contents tree.old) →
        LaysOnly root.now (F.calls tree.old) (F.calls tree.new) }
    ensures frame { Came F.Tree tree.old tree.new }
    ensures read_fault { IsErrOf result FileFault.ReadFault →
        Rose (F.failed_reads tree.old) (F.failed_reads tree.new) }
    ensures write_fault { IsErrOf result FileFault.WriteFault →
        Rose (F.failed_changes tree.old) (F.failed_changes tree.new) }
    ensures changed { IsTrue F.tells → HasFile root.now (F.contents tree.old) →
        (p : PathValue) → result ≢ Err (FileFault.Changed p) }
{
    let mark = root.below(alloc, "pg_walreplay.unfinished")?;
    let folder = shadow_folder(alloc, root)?;
    clear(alloc, tree, root, &mark, &folder)
}

/// Ends a replay that can be started again, once all its changes are synced: the second gate of its
/// mark is opened, the copies are removed with all that stands at their folder, and then the mark,
/// each synced before the next. It refuses as `begin_copies`.
pub fn end_copies<F: Tree>(alloc: Global, tree: &mut F, root: &Path) -> Result<(), FileFault>
    requires room { length root.now.parts ≤ 61 }
    ensures done { IsTrue F.tells → HasMark root.now (F.contents tree.old) →
        OnOk result (IsGone root.now (F.contents tree.new)) }
    ensures refused { IsTrue F.tells → HasMark root.now (F.contents tree.old) →
        IfErr result (IsKept root.now (F.contents tree.old)) }
    // where the folder of copies can't be removed, the mark stays
    ensures stands { IsTrue F.tells → HasMark root.now (F.contents tree.old) →
        IfErr result (LeavesFile root.now (F.contents tree.new)) }
    ensures elsewhere { IsTrue F.tells → HasMark root.now (F.contents tree.old) →
        SameElsewhere root.now (F.contents tree.old) (F.contents tree.new) }
    // a stop at any moment leaves the mark but for its second gate, and the copies unless that is
    // open; or nothing of both
    ensures stops { IsTrue F.tells → HasMark root.now (F.contents tree.old) →
        StandsSynced (F.contents tree.old) (moment_of F.Tree tree.old) → LeavesOnly
        (IsEndLeft root.now (F.contents tree.old)) (F.stops tree.old) (F.stops tree.new) }
    ensures synced { IsTrue F.tells → HasMark root.now (F.contents tree.old) →
        OnOk result (StandsSynced (F.contents tree.new) (moment_of F.Tree tree.new)) }
    // each changing call is a sync, or at the mark or the copies
    ensures calls { IsTrue F.tells → HasMark root.now (F.contents tree.old) →
        LaysOnly root.now (F.calls tree.old) (F.calls tree.new) }
    ensures frame { Came F.Tree tree.old tree.new }
    ensures read_fault { IsErrOf result FileFault.ReadFault →
        Rose (F.failed_reads tree.old) (F.failed_reads tree.new) }
    ensures write_fault { IsErrOf result FileFault.WriteFault →
        Rose (F.failed_changes tree.old) (F.failed_changes tree.new) }
    ensures changed { IsTrue F.tells → HasMark root.now (F.contents tree.old) → (p : PathValue) →
        result ≢ Err (FileFault.Changed p) }
{
    let mark = root.below(alloc, "pg_walreplay.unfinished")?;
    let folder = shadow_folder(alloc, root)?;
    end(alloc, tree, root, &mark, &folder)
}
