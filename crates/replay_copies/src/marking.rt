// The steps by which the mark is laid and its gates are opened, each synced.
ghost use Rattle.std.specs.Prelude.{◌≡◌, ◌≢◌, Err, IfErr, IsErrOf, IsTrue, None, Ok, OnOk, length};
ghost use Rattle.std.specs.FinMap.{remove};
ghost use Rattle.cluster_tree.specs.Causes.{Rose};
ghost use Rattle.cluster_tree.specs.Change.{all_changed, first_refusal};
ghost use Rattle.cluster_tree.specs.Contents.{entry_at};
ghost use Rattle.cluster_tree.specs.Frame.{Came, moment_of};
ghost use Rattle.cluster_tree.specs.PathOrder.{path_eq};
ghost use Rattle.cluster_tree.specs.PathValue.{PathValue};
ghost use Rattle.cluster_tree.specs.Stops.{LeavesOnly};
ghost use Rattle.file_edits.specs.Answers.{IsFree};
ghost use Rattle.file_edits.specs.Own.{GoesBy};
ghost use Rattle.gated_marks.specs.Changes.{gate_opened, head_laid, text_laid};
ghost use Rattle.gated_marks.specs.Left.{IsEndLeft, IsHeadLaid, IsLeftTorn, with_mark};
ghost use Rattle.marked_runs.specs.Moments.{StandsSynced};
ghost use Rattle.marked_runs.specs.Runs.{ended};
ghost use Rattle.replay_copies.specs.Calls.{is_own_or_sync};
ghost use Rattle.replay_copies.specs.Laid.{mark_head};

use cluster_tree::{FileFault, Path, Tree};
use gated_marks::{lay_head, lay_text, open_gate};
use marked_runs::{StepFault, finish};
use std::alloc::Global;

// The answer of a step about the mark, where a refusal contradicts what was asked.
fn told(alloc: Global, mark: &Path, done: Result<(), StepFault>) -> Result<(), FileFault>
    ensures ok { OnOk result (done ≡ Ok tt) }
    ensures free { done ≢ Err StepFault.Contradicted → IfErr result IsFree }
    ensures read_fault { IsErrOf result FileFault.ReadFault → IsErrOf done StepFault.ReadFault }
    ensures write_fault { IsErrOf result FileFault.WriteFault → IsErrOf done StepFault.WriteFault }
{
    match done {
        Ok(()) => Ok(()),
        Err(StepFault::ReadFault) => Err(FileFault::ReadFault),
        Err(StepFault::WriteFault) => Err(FileFault::WriteFault),
        Err(StepFault::Contradicted) => Err(FileFault::Changed(mark.copy(alloc)?)),
    }
}

/// Gives the mark its head and nothing behind it.
pub(crate) fn begin_mark<F: Tree>(alloc: Global, tree: &mut F, mark: &Path) -> Result<(), FileFault>
    ensures synced { IsTrue F.tells → first_refusal (F.contents tree.old) (head_laid (F.contents
        tree.old) mark.now mark_head) ≡ None → OnOk result (StandsSynced (with_mark (F.contents
        tree.old) mark.now mark_head) (moment_of F.Tree tree.new)) }
    ensures any_moment { IsTrue F.tells → first_refusal (F.contents tree.old) (head_laid (F.contents
        tree.old) mark.now mark_head) ≡ None → LeavesOnly (IsHeadLaid (moment_of F.Tree tree.old)
        mark.now (length mark_head)) (F.stops tree.old) (F.stops tree.new) }
    ensures free { IsTrue F.tells → first_refusal (F.contents tree.old) (head_laid (F.contents
        tree.old) mark.now mark_head) ≡ None → IfErr result IsFree }
    ensures elsewhere { IsTrue F.tells → first_refusal (F.contents tree.old) (head_laid (F.contents
        tree.old) mark.now mark_head) ≡ None → (p : PathValue) → p ≢ mark.now → entry_at (F.contents
        tree.new) p ≡ entry_at (F.contents tree.old) p }
    ensures calls { IsTrue F.tells → first_refusal (F.contents tree.old) (head_laid (F.contents
        tree.old) mark.now mark_head) ≡ None →
        GoesBy (is_own_or_sync (λ p. path_eq p mark.now)) (F.calls tree.old) (F.calls tree.new) }
    ensures frame { Came F.Tree tree.old tree.new }
    ensures read_fault { IsErrOf result FileFault.ReadFault →
        Rose (F.failed_reads tree.old) (F.failed_reads tree.new) }
    ensures write_fault { IsErrOf result FileFault.WriteFault →
        Rose (F.failed_changes tree.old) (F.failed_changes tree.new) }
{
    let done = lay_head(tree, mark, b"pg_walreplay 2\n--\n");
    told(alloc, mark, done)
}

/// Writes a text behind the head of the mark, and syncs.
pub(crate) fn fill_mark<F: Tree>(
    alloc: Global,
    tree: &mut F,
    mark: &Path,
    text: &[u8],
) -> Result<(), FileFault>
    ensures synced { IsTrue F.tells → first_refusal (F.contents tree.old) (text_laid mark.now
        (length mark_head) text.now) ≡ None → OnOk result (StandsSynced (all_changed (F.contents
        tree.old) (text_laid mark.now (length mark_head) text.now)) (moment_of F.Tree tree.new)) }
    ensures any_moment { IsTrue F.tells → first_refusal (F.contents tree.old) (text_laid mark.now
        (length mark_head) text.now) ≡ None → LeavesOnly (IsLeftTorn (moment_of F.Tree tree.old)
        mark.now (length mark_head) (length text.now)) (F.stops tree.old) (F.stops tree.new) }
    ensures free { IsTrue F.tells → first_refusal (F.contents tree.old) (text_laid mark.now (length
        mark_head) text.now) ≡ None → IfErr result IsFree }
    ensures elsewhere { IsTrue F.tells → first_refusal (F.contents tree.old) (text_laid mark.now
        (length mark_head) text.now) ≡ None → (p : PathValue) → p ≢ mark.now → entry_at (F.contents
        tree.new) p ≡ entry_at (F.contents tree.old) p }
    ensures calls { IsTrue F.tells → first_refusal (F.contents tree.old) (text_laid mark.now (length
        mark_head) text.now) ≡ None →
        GoesBy (is_own_or_sync (λ p. path_eq p mark.now)) (F.calls tree.old) (F.calls tree.new) }
    ensures frame { Came F.Tree tree.old tree.new }
    ensures read_fault { result ≢ Err FileFault.ReadFault }
    ensures write_fault { IsErrOf result FileFault.WriteFault →
        Rose (F.failed_changes tree.old) (F.failed_changes tree.new) }
{
    let done = lay_text(tree, mark, 18, text);
    told(alloc, mark, done)
}

/// Opens the gate at a byte of the mark, and syncs.
pub(crate) fn open_mark<F: Tree>(
    alloc: Global,
    tree: &mut F,
    mark: &Path,
    gate: u64,
) -> Result<(), FileFault>
    ensures synced { IsTrue F.tells → first_refusal (F.contents tree.old) (gate_opened mark.now
        gate) ≡ None → OnOk result (StandsSynced (all_changed (F.contents tree.old) (gate_opened
        mark.now gate)) (moment_of F.Tree tree.new)) }
    ensures any_moment { IsTrue F.tells → first_refusal (F.contents tree.old) (gate_opened mark.now
        gate) ≡ None → LeavesOnly (IsLeftTorn (moment_of F.Tree tree.old) mark.now gate 1) (F.stops
        tree.old) (F.stops tree.new) }
    ensures free { IsTrue F.tells → first_refusal (F.contents tree.old) (gate_opened mark.now gate)
        ≡ None → IfErr result IsFree }
    ensures elsewhere { IsTrue F.tells →
        first_refusal (F.contents tree.old) (gate_opened mark.now gate) ≡ None →
        (p : PathValue) → p ≢ mark.now →
        entry_at (F.contents tree.new) p ≡ entry_at (F.contents tree.old) p }
    ensures calls { IsTrue F.tells → first_refusal (F.contents tree.old) (gate_opened mark.now gate) ≡ None →
        GoesBy (is_own_or_sync (λ p. path_eq p mark.now)) (F.calls tree.old) (F.calls tree.new) }
    ensures frame { Came F.Tree tree.old tree.new }
    ensures read_fault { result ≢ Err FileFault.ReadFault }
    ensures write_fault { IsErrOf result FileFault.WriteFault →
        Rose (F.failed_changes tree.old) (F.failed_changes tree.new) }
{
    let done = open_gate(tree, mark, gate);
    told(alloc, mark, done)
}

/// Makes all that was changed durable, removes the mark, and syncs.
pub(crate) fn finish_mark<F: Tree>(
    alloc: Global,
    tree: &mut F,
    mark: &Path,
) -> Result<(), FileFault>
    ensures synced { IsTrue F.tells → first_refusal (F.contents tree.old) (ended mark.now) ≡ None →
        OnOk result (StandsSynced (remove (F.contents tree.old) mark.now) (moment_of F.Tree
        tree.new)) }
    ensures any_moment { IsTrue F.tells → first_refusal (F.contents tree.old) (ended mark.now) ≡
        None → LeavesOnly (IsEndLeft (moment_of F.Tree tree.old) mark.now) (F.stops tree.old)
        (F.stops tree.new) }
    ensures free { IsTrue F.tells → first_refusal (F.contents tree.old) (ended mark.now) ≡ None →
        IfErr result IsFree }
    ensures elsewhere { IsTrue F.tells → first_refusal (F.contents tree.old) (ended mark.now) ≡ None
        → (p : PathValue) → p ≢ mark.now → entry_at (F.contents tree.new) p ≡ entry_at (F.contents
        tree.old) p }
    ensures calls { IsTrue F.tells → first_refusal (F.contents tree.old) (ended mark.now) ≡ None →
        GoesBy (is_own_or_sync (λ p. path_eq p mark.now)) (F.calls tree.old) (F.calls tree.new) }
    ensures frame { Came F.Tree tree.old tree.new }
    ensures read_fault { result ≢ Err FileFault.ReadFault }
    ensures write_fault { IsErrOf result FileFault.WriteFault →
        Rose (F.failed_changes tree.old) (F.failed_changes tree.new) }
{
    let done = finish(tree, mark);
    told(alloc, mark, done)
}
