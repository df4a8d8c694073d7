// All that is laid before a replay: the mark's head, the copies, and the list in the mark.
ghost use Rattle.std.specs.Prelude.{◌≡◌, ◌≢◌, ◌≤◌, Err, IfErr, IsErrOf, IsTrue, OnOk, length};
ghost use Rattle.cluster_tree.specs.Causes.{Rose};
ghost use Rattle.cluster_tree.specs.Contents.{Contents};
ghost use Rattle.cluster_tree.specs.Frame.{Came, moment_of};
ghost use Rattle.cluster_tree.specs.PathValue.{PathValue};
ghost use Rattle.cluster_tree.specs.Stops.{LeavesOnly};
ghost use Rattle.gated_marks.specs.Left.{with_mark};
ghost use Rattle.marked_runs.specs.Moments.{IsBegun, StandsSynced};
ghost use Rattle.replay_copies.specs.Calls.{LaysOnly};
ghost use Rattle.replay_copies.specs.Copying.{Begins, Fills};
ghost use Rattle.replay_copies.specs.Left.{IsBeginLeft, IsKept, LeavesFile};
ghost use Rattle.replay_copies.specs.Laid.{IsLaid, IsReady, SameElsewhere, mark_head, mark_of};
ghost use Rattle.replay_list.specs.Text.{list_text};

use crate::laying::lay_copies;
use crate::marking::{begin_mark, fill_mark, open_mark};
use cluster_tree::{FileFault, Path, Tree};
use replay_list::{Listed, list_text};
use std::alloc::Global;

// Lays the copies, then the list in the mark behind its head, and then opens the mark's first gate.
fn fill<F: Tree>(
    alloc: Global,
    tree: &mut F,
    root: &Path,
    mark: &Path,
    listed: &[Listed],
    text: &[u8],
) -> Result<(), FileFault>
    requires room { length root.now.parts ≤ 61 }
    requires mark { mark.now ≡ mark_of root.now }
    requires text { text.now ≡ list_text root.now listed.now }
    ensures fills { IsTrue F.tells → (c : Contents) → IsReady root.now listed.now c →
        StandsSynced (with_mark c (mark_of root.now) mark_head) (moment_of F.Tree tree.old) →
        Fills root.now listed.now c (moment_of F.Tree tree.old) (moment_of F.Tree tree.new) result }
    ensures calls { IsTrue F.tells → (c : Contents) → IsReady root.now listed.now c →
        StandsSynced (with_mark c (mark_of root.now) mark_head) (moment_of F.Tree tree.old) →
        LaysOnly root.now (F.calls tree.old) (F.calls tree.new) }
    ensures frame { Came F.Tree tree.old tree.new }
    ensures read_fault { IsErrOf result FileFault.ReadFault →
        Rose (F.failed_reads tree.old) (F.failed_reads tree.new) }
    ensures write_fault { IsErrOf result FileFault.WriteFault →
        Rose (F.failed_changes tree.old) (F.failed_changes tree.new) }
{
    lay_copies(alloc, tree, root, listed)?;
    fill_mark(alloc, tree, mark, text)?;
    open_mark(alloc, tree, mark, 15)
}

// Lays the mark's head, and then all else.
fn begin<F: Tree>(
    alloc: Global,
    tree: &mut F,
    root: &Path,
    mark: &Path,
    listed: &[Listed],
    text: &[u8],
) -> Result<(), FileFault>
    requires room { length root.now.parts ≤ 61 }
    requires mark { mark.now ≡ mark_of root.now }
    requires text { text.now ≡ list_text root.now listed.now }
    ensures begins { IsTrue F.tells → IsReady root.now listed.now (F.contents tree.old) →
        Begins root.now listed.now (moment_of F.Tree tree.old) (moment_of F.Tree tree.new) result }
    ensures calls { IsTrue F.tells → IsReady root.now listed.now (F.contents tree.old) →
        LaysOnly root.now (F.calls tree.old) (F.calls tree.new) }
    ensures frame { Came F.Tree tree.old tree.new }
    ensures read_fault { IsErrOf result FileFault.ReadFault →
        Rose (F.failed_reads tree.old) (F.failed_reads tree.new) }
    ensures write_fault { IsErrOf result FileFault.WriteFault →
        Rose (F.failed_changes tree.old) (F.failed_changes tree.new) }
{
    begin_mark(alloc, tree, mark)?;
    fill(alloc, tree, root, mark, listed, text)
}

/// Lays, before the first change of a replay that can be started again, what it is started again
/// from: the mark at the root with a list of what stood, and copies of the listed files of no main
/// fork. The mark's head is laid with both gates shut, the folder of copies is made anew with them,
/// the list is written behind the head, and the first gate is opened, each synced before the next.
///
/// Refuses with the fault of the removal of what stands at the folder of copies (`remove_tree` of
/// `file_edits`). `ReadFault`, `WriteFault`, `Changed` where the tree contradicted itself, and
/// `OutOfMemory` may come at any point; what a stop leaves then has no whole mark, or all is laid.
pub fn begin_copies<F: Tree>(
    alloc: Global,
    tree: &mut F,
    root: &Path,
    listed: &[Listed],
) -> Result<(), FileFault>
    requires room { length root.now.parts ≤ 61 }
    ensures done { IsTrue F.tells → IsReady root.now listed.now (F.contents tree.old) →
        OnOk result (IsLaid root.now listed.now (F.contents tree.old) (F.contents tree.new)) }
    ensures refused { IsTrue F.tells → IsReady root.now listed.now (F.contents tree.old) →
        IfErr result (IsKept root.now (F.contents tree.old)) }
    // then the mark stands, with its gates shut
    ensures stands { IsTrue F.tells → IsReady root.now listed.now (F.contents tree.old) →
        IfErr result (LeavesFile root.now (F.contents tree.new)) }
    ensures elsewhere { IsTrue F.tells → IsReady root.now listed.now (F.contents tree.old) →
        SameElsewhere root.now (F.contents tree.old) (F.contents tree.new) }
    // a stop at any moment leaves no whole mark, or all that is laid
    ensures stops { IsTrue F.tells → IsReady root.now listed.now (F.contents tree.old) →
        StandsSynced (F.contents tree.old) (moment_of F.Tree tree.old) → LeavesOnly (IsBeginLeft
        root.now listed.now (F.contents tree.old)) (F.stops tree.old) (F.stops tree.new) }
    // or, whatever is synced, what one could have left at the start, or a mark
    ensures marked { IsTrue F.tells → IsReady root.now listed.now (F.contents tree.old) → LeavesOnly
        (IsBegun (mark_of root.now) (moment_of F.Tree tree.old)) (F.stops tree.old) (F.stops
        tree.new) }
    ensures synced { IsTrue F.tells → IsReady root.now listed.now (F.contents tree.old) →
        OnOk result (StandsSynced (F.contents tree.new) (moment_of F.Tree tree.new)) }
    // each changing call is a sync, or at the mark or the copies
    ensures calls { IsTrue F.tells → IsReady root.now listed.now (F.contents tree.old) →
        LaysOnly root.now (F.calls tree.old) (F.calls tree.new) }
    ensures frame { Came F.Tree tree.old tree.new }
    ensures read_fault { IsErrOf result FileFault.ReadFault →
        Rose (F.failed_reads tree.old) (F.failed_reads tree.new) }
    ensures write_fault { IsErrOf result FileFault.WriteFault →
        Rose (F.failed_changes tree.old) (F.failed_changes tree.new) }
    ensures changed { IsTrue F.tells → IsReady root.now listed.now (F.contents tree.old) →
        (p : PathValue) → result ≢ Err (FileFault.Changed p) }
{
    let text = list_text(alloc, root, listed)?;
    let mark = root.below(alloc, "pg_walreplay.unfinished")?;
    begin(alloc, tree, root, &mark, listed, text.as_str().as_bytes())
}
