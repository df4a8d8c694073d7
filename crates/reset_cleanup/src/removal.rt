// A file of an archive, removed.
ghost use Rattle.std.specs.Prelude.{◌≡◌, ◌≢◌, [], ◌∷◌, true, Err, IsErrOf, IsTrue};
ghost use Rattle.cluster_tree.specs.Causes.{Rose};
ghost use Rattle.cluster_tree.specs.Change.{Removes};
ghost use Rattle.cluster_tree.specs.Contents.{entry_at, is_file};
ghost use Rattle.cluster_tree.specs.Frame.{Came};
ghost use Rattle.cluster_tree.specs.PathValue.{PathValue};
ghost use Rattle.marked_runs.specs.Runs.{Runs, is_done};

use cluster_tree::{Path, Tree};
use marked_runs::{PerformFault, StepFault, remove_entry};

/// Removes a file. It takes the path itself, so that `Changed` hands it out without memory.
///
/// Answers `WriteFault` only where the removal failed, which the tree has counted, and `Changed` with
/// the path where the tree refuses it, so never where it tells its contents. There is no `ReadFault`.
#[tactic(auto, using(crate::proofs::FileLemmas::file_steps))]
pub fn cleanup<F: Tree>(tree: &mut F, path: Path) -> Result<(), PerformFault>
    requires { IsTrue F.tells → is_file (entry_at (F.contents tree.old) path) ≡ true }
    ensures runs { IsTrue F.tells → Runs (Removes path ∷ []) (F.calls tree.old) (F.calls tree.new)
        (F.contents tree.old) (F.contents tree.new) (is_done result) }
    ensures changed { IsTrue F.tells → (p : PathValue) → result ≢ Err (PerformFault.Changed p) }
    ensures own { (p : PathValue) → result ≡ Err (PerformFault.Changed p) → p ≡ path }
    ensures frame { Came F.Tree tree.old tree.new }
    ensures read_fault { result ≢ Err PerformFault.ReadFault }
    ensures write_fault { IsErrOf result PerformFault.WriteFault →
        Rose (F.failed_changes tree.old) (F.failed_changes tree.new) }
{
    match remove_entry(tree, &path) {
        Ok(()) => Ok(()),
        Err(StepFault::ReadFault) => Err(PerformFault::ReadFault),
        Err(StepFault::WriteFault) => Err(PerformFault::WriteFault),
        Err(StepFault::Contradicted) => Err(PerformFault::Changed(path)),
    }
}
