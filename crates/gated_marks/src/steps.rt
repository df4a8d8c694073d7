// Bytes of a mark, each written and synced. None takes memory.
ghost use Rattle.std.specs.Prelude.{◌≡◌, ◌≢◌, [], ◌∷◌, Err, IsErrOf, IsTrue, None, OnOk, length};
ghost use Rattle.cluster_tree.specs.Causes.{Rose};
ghost use Rattle.cluster_tree.specs.Change.{Syncs, Writes, all_changed, first_refusal};
ghost use Rattle.cluster_tree.specs.Frame.{Came, moment_of};
ghost use Rattle.cluster_tree.specs.Stops.{LeavesOnly};
ghost use Rattle.marked_runs.specs.Carried.{Carries};
ghost use Rattle.marked_runs.specs.Moments.{StandsSynced, Took};
ghost use Rattle.gated_marks.specs.Changes.{gate_opened, text_laid};
ghost use Rattle.gated_marks.specs.Left.{IsLeftTorn};

use cluster_tree::{Path, Tree, TreeFault};
use marked_runs::{StepFault, overwrite};

// Makes all that was changed durable, with the answers of `lay_text`.
pub(crate) fn sync<F: Tree>(tree: &mut F) -> Result<(), StepFault>
    ensures carries { Carries F.Tree (Syncs ∷ []) tree.old tree.new result }
    ensures took { Took F.Tree Syncs tree.old tree.new result }
    ensures frame { Came F.Tree tree.old tree.new }
    ensures read_fault { result ≢ Err StepFault.ReadFault }
    ensures write_fault { IsErrOf result StepFault.WriteFault →
        Rose (F.failed_changes tree.old) (F.failed_changes tree.new) }
{
    match tree.sync() {
        Ok(()) => Ok(()),
        Err(TreeFault::Failed) => Err(StepFault::WriteFault),
        Err(_) => Err(StepFault::Contradicted),
    }
}

// Writes over the bytes of a mark from the offset `at` on, by one write, and syncs.
pub(crate) fn write_synced<F: Tree>(
    tree: &mut F,
    mark: &Path,
    at: u64,
    bytes: &[u8],
) -> Result<(), StepFault>
    ensures carries { Carries F.Tree (Writes mark.now at bytes.now ∷ Syncs ∷ [])
        tree.old tree.new result }
    ensures any_moment { IsTrue F.tells → first_refusal (F.contents tree.old)
        (Writes mark.now at bytes.now ∷ Syncs ∷ []) ≡ None → LeavesOnly
        (IsLeftTorn (moment_of F.Tree tree.old) mark.now at (length bytes.now))
        (F.stops tree.old) (F.stops tree.new) }
    ensures synced { IsTrue F.tells → first_refusal (F.contents tree.old)
        (Writes mark.now at bytes.now ∷ Syncs ∷ []) ≡ None → OnOk result (StandsSynced
        (all_changed (F.contents tree.old) (Writes mark.now at bytes.now ∷ Syncs ∷ []))
        (moment_of F.Tree tree.new)) }
    ensures frame { Came F.Tree tree.old tree.new }
    ensures read_fault { result ≢ Err StepFault.ReadFault }
    ensures write_fault { IsErrOf result StepFault.WriteFault →
        Rose (F.failed_changes tree.old) (F.failed_changes tree.new) }
{
    match overwrite(tree, mark, at, bytes) {
        Ok(()) => sync(tree),
        Err(fault) => Err(fault),
    }
}

/// Writes a text over the bytes of a mark from the offset `at` on, nothing where it has no bytes, and
/// syncs. Answers `WriteFault` where a call failed, and `Contradicted` where the tree refuses one. A
/// stop leaves what one could have left at the start, with the write in part.
pub fn lay_text<F: Tree>(tree: &mut F, mark: &Path, at: u64, text: &[u8]) -> Result<(), StepFault>
    ensures carries { Carries F.Tree (text_laid mark.now at text.now) tree.old tree.new result }
    ensures any_moment { IsTrue F.tells →
        first_refusal (F.contents tree.old) (text_laid mark.now at text.now) ≡ None → LeavesOnly
        (IsLeftTorn (moment_of F.Tree tree.old) mark.now at (length text.now))
        (F.stops tree.old) (F.stops tree.new) }
    ensures synced { IsTrue F.tells →
        first_refusal (F.contents tree.old) (text_laid mark.now at text.now) ≡ None → OnOk result
        (StandsSynced (all_changed (F.contents tree.old) (text_laid mark.now at text.now))
        (moment_of F.Tree tree.new)) }
    ensures frame { Came F.Tree tree.old tree.new }
    ensures read_fault { result ≢ Err StepFault.ReadFault }
    ensures write_fault { IsErrOf result StepFault.WriteFault →
        Rose (F.failed_changes tree.old) (F.failed_changes tree.new) }
{
    if text.is_empty() {
        sync(tree)
    } else {
        write_synced(tree, mark, at, text)
    }
}

/// Opens the gate at the offset `at` of a mark: the one byte there is written as `+`, and synced. It
/// has the answers of `lay_text`.
pub fn open_gate<F: Tree>(tree: &mut F, mark: &Path, at: u64) -> Result<(), StepFault>
    ensures carries { Carries F.Tree (gate_opened mark.now at) tree.old tree.new result }
    ensures any_moment { IsTrue F.tells →
        first_refusal (F.contents tree.old) (gate_opened mark.now at) ≡ None → LeavesOnly
        (IsLeftTorn (moment_of F.Tree tree.old) mark.now at 1)
        (F.stops tree.old) (F.stops tree.new) }
    ensures synced { IsTrue F.tells →
        first_refusal (F.contents tree.old) (gate_opened mark.now at) ≡ None → OnOk result
        (StandsSynced (all_changed (F.contents tree.old) (gate_opened mark.now at))
        (moment_of F.Tree tree.new)) }
    ensures frame { Came F.Tree tree.old tree.new }
    ensures read_fault { result ≢ Err StepFault.ReadFault }
    ensures write_fault { IsErrOf result StepFault.WriteFault →
        Rose (F.failed_changes tree.old) (F.failed_changes tree.new) }
{
    write_synced(tree, mark, at, b"+")
}
