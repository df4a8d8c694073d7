// The head of a mark, laid with its gates closed. None takes memory.
ghost use Rattle.std.specs.Prelude.{◌≡◌, ◌≢◌, ℕ, [], ◌∷◌, Err, IsErrOf, IsTrue, None, OnOk, false, true, length};
ghost use Rattle.cluster_tree.specs.Causes.{Rose};
ghost use Rattle.cluster_tree.specs.Change.{Cuts, MakesFile, Syncs, Writes, first_refusal};
ghost use Rattle.cluster_tree.specs.Contents.{entry_at, is_file};
ghost use Rattle.cluster_tree.specs.Frame.{Came, moment_of};
ghost use Rattle.cluster_tree.specs.Stops.{LeavesOnly};
ghost use Rattle.marked_runs.specs.Carried.{Carries};
ghost use Rattle.marked_runs.specs.Moments.{StandsSynced};
ghost use Rattle.gated_marks.specs.Changes.{head_laid};
ghost use Rattle.gated_marks.specs.Left.{IsHeadLaid, with_mark};
ghost use Rattle.gated_marks.specs.Looks.{of_look};
ghost use Rattle.gated_marks.specs.Refused.{IsOther, IsRefused};

use crate::steps::{sync, write_synced};
use cluster_tree::{Kind, Path, Tree, TreeFault};
use marked_runs::{StepFault, cut_file, write_new};

// Why a look broke off that nothing was to refuse.
fn of_look(fault: TreeFault) -> StepFault
    ensures { result ≡ of_look fault }
{
    match fault {
        TreeFault::Failed => StepFault::ReadFault,
        _ => StepFault::Contradicted,
    }
}

// A mark that is made, with this head.
fn lay_new<F: Tree>(tree: &mut F, mark: &Path, head: &[u8]) -> Result<(), StepFault>
    ensures carries { Carries F.Tree (MakesFile mark.now ∷ Writes mark.now 0 head.now ∷ Syncs ∷ [])
        tree.old tree.new result }
    ensures any_moment { IsTrue F.tells → is_file (entry_at (F.contents tree.old) mark.now) ≡ false →
        first_refusal (F.contents tree.old)
        (MakesFile mark.now ∷ Writes mark.now 0 head.now ∷ Syncs ∷ []) ≡ None → LeavesOnly
        (IsHeadLaid (moment_of F.Tree tree.old) mark.now (length head.now))
        (F.stops tree.old) (F.stops tree.new) }
    ensures synced { IsTrue F.tells → first_refusal (F.contents tree.old)
        (MakesFile mark.now ∷ Writes mark.now 0 head.now ∷ Syncs ∷ []) ≡ None → OnOk result
        (StandsSynced (with_mark (F.contents tree.old) mark.now head.now) (moment_of F.Tree tree.new)) }
    ensures frame { Came F.Tree tree.old tree.new }
    ensures read_fault { result ≢ Err StepFault.ReadFault }
    ensures write_fault { IsErrOf result StepFault.WriteFault →
        Rose (F.failed_changes tree.old) (F.failed_changes tree.new) }
{
    match write_new(tree, mark, head) {
        Ok(()) => sync(tree),
        Err(fault) => Err(fault),
    }
}

// A mark that stands is cut to nothing, and that is made durable.
fn empty_mark<F: Tree>(tree: &mut F, mark: &Path) -> Result<(), StepFault>
    ensures carries { Carries F.Tree (Cuts mark.now 0 ∷ Syncs ∷ []) tree.old tree.new result }
    ensures any_moment { IsTrue F.tells → is_file (entry_at (F.contents tree.old) mark.now) ≡ true →
        (size : ℕ) → first_refusal (F.contents tree.old) (Cuts mark.now 0 ∷ Syncs ∷ []) ≡ None →
        LeavesOnly (IsHeadLaid (moment_of F.Tree tree.old) mark.now size)
        (F.stops tree.old) (F.stops tree.new) }
    ensures synced { IsTrue F.tells → first_refusal (F.contents tree.old)
        (Cuts mark.now 0 ∷ Syncs ∷ []) ≡ None → OnOk result
        (StandsSynced (with_mark (F.contents tree.old) mark.now []) (moment_of F.Tree tree.new)) }
    ensures frame { Came F.Tree tree.old tree.new }
    ensures read_fault { result ≢ Err StepFault.ReadFault }
    ensures write_fault { IsErrOf result StepFault.WriteFault →
        Rose (F.failed_changes tree.old) (F.failed_changes tree.new) }
{
    match cut_file(tree, mark, 0) {
        Ok(()) => sync(tree),
        Err(fault) => Err(fault),
    }
}

// A mark that stands is emptied, and given this head.
fn lay_over<F: Tree>(tree: &mut F, mark: &Path, head: &[u8]) -> Result<(), StepFault>
    ensures carries { Carries F.Tree (Cuts mark.now 0 ∷ Syncs ∷ Writes mark.now 0 head.now ∷ Syncs ∷ [])
        tree.old tree.new result }
    ensures any_moment { IsTrue F.tells → is_file (entry_at (F.contents tree.old) mark.now) ≡ true →
        first_refusal (F.contents tree.old)
        (Cuts mark.now 0 ∷ Syncs ∷ Writes mark.now 0 head.now ∷ Syncs ∷ []) ≡ None → LeavesOnly
        (IsHeadLaid (moment_of F.Tree tree.old) mark.now (length head.now))
        (F.stops tree.old) (F.stops tree.new) }
    ensures synced { IsTrue F.tells → first_refusal (F.contents tree.old)
        (Cuts mark.now 0 ∷ Syncs ∷ Writes mark.now 0 head.now ∷ Syncs ∷ []) ≡ None → OnOk result
        (StandsSynced (with_mark (F.contents tree.old) mark.now head.now) (moment_of F.Tree tree.new)) }
    ensures frame { Came F.Tree tree.old tree.new }
    ensures read_fault { result ≢ Err StepFault.ReadFault }
    ensures write_fault { IsErrOf result StepFault.WriteFault →
        Rose (F.failed_changes tree.old) (F.failed_changes tree.new) }
{
    match empty_mark(tree, mark) {
        Ok(()) => write_synced(tree, mark, 0, head),
        Err(fault) => Err(fault),
    }
}

/// Gives a mark this head and nothing behind it: where a file stands it is cut to nothing and synced
/// first, and else one is made; then the head is written from the start on, and synced. Answers
/// `ReadFault` where the look at it failed, `WriteFault` where a changing call did, and `Contradicted`
/// where a folder or link stands there, or the tree refuses a call.
pub fn lay_head<F: Tree>(tree: &mut F, mark: &Path, head: &[u8]) -> Result<(), StepFault>
    ensures carries { Carries F.Tree (head_laid (F.contents tree.old) mark.now head.now)
        tree.old tree.new result }
    ensures any_moment { IsTrue F.tells → first_refusal (F.contents tree.old)
        (head_laid (F.contents tree.old) mark.now head.now) ≡ None → LeavesOnly
        (IsHeadLaid (moment_of F.Tree tree.old) mark.now (length head.now))
        (F.stops tree.old) (F.stops tree.new) }
    ensures synced { IsTrue F.tells → first_refusal (F.contents tree.old)
        (head_laid (F.contents tree.old) mark.now head.now) ≡ None → OnOk result
        (StandsSynced (with_mark (F.contents tree.old) mark.now head.now) (moment_of F.Tree tree.new)) }
    ensures other { IsTrue F.tells → IsOther (entry_at (F.contents tree.old) mark.now) →
        IsRefused F.Tree tree.old tree.new result }
    ensures frame { Came F.Tree tree.old tree.new }
    ensures read_fault { IsErrOf result StepFault.ReadFault →
        Rose (F.failed_reads tree.old) (F.failed_reads tree.new) }
    ensures write_fault { IsErrOf result StepFault.WriteFault →
        Rose (F.failed_changes tree.old) (F.failed_changes tree.new) }
{
    match tree.kind(mark) {
        Ok(Kind::Absent) => lay_new(tree, mark, head),
        Ok(Kind::File) => lay_over(tree, mark, head),
        Ok(Kind::Folder) => Err(StepFault::Contradicted),
        Err(fault) => Err(of_look(fault)),
    }
}
