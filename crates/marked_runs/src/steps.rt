// Single changes, where nothing is to refuse them. None takes memory.
ghost use Rattle.std.specs.Prelude.{◌≡◌, ◌≢◌, [], ◌∷◌, Err, IsErrOf};
ghost use Rattle.cluster_tree.specs.Causes.{Rose};
ghost use Rattle.cluster_tree.specs.Change.{Cuts, MakesFile, MakesFolder, Removes, Syncs, Writes};
ghost use Rattle.cluster_tree.specs.Frame.{Came};
ghost use Rattle.marked_runs.specs.Carried.{Carries};
ghost use Rattle.marked_runs.specs.Moments.{Took};
ghost use Rattle.marked_runs.specs.Settled.{settled};

use crate::StepFault;
use cluster_tree::{Path, Tree, TreeFault};

// The answer of a changing call that nothing was to refuse: a refusal contradicts what was asked.
fn settled(done: Result<(), TreeFault>) -> Result<(), StepFault>
    ensures { result ≡ settled done }
{
    match done {
        Ok(()) => Ok(()),
        Err(TreeFault::Failed) => Err(StepFault::WriteFault),
        Err(_) => Err(StepFault::Contradicted),
    }
}

/// Removes a file or an empty folder. Answers `WriteFault` where the call failed, and `Contradicted`
/// where the tree refuses it.
pub fn remove_entry<F: Tree>(tree: &mut F, path: &Path) -> Result<(), StepFault>
    ensures carries { Carries F.Tree (Removes path.now ∷ []) tree.old tree.new result }
    ensures took { Took F.Tree (Removes path.now) tree.old tree.new result }
    ensures frame { Came F.Tree tree.old tree.new }
    ensures read_fault { result ≢ Err StepFault.ReadFault }
    ensures write_fault { IsErrOf result StepFault.WriteFault →
        Rose (F.failed_changes tree.old) (F.failed_changes tree.new) }
{
    let done = tree.remove(path);
    settled(done)
}

/// Makes an empty folder, with the answers of `remove_entry`.
pub fn make_folder<F: Tree>(tree: &mut F, path: &Path) -> Result<(), StepFault>
    ensures carries { Carries F.Tree (MakesFolder path.now ∷ []) tree.old tree.new result }
    ensures frame { Came F.Tree tree.old tree.new }
    ensures read_fault { result ≢ Err StepFault.ReadFault }
    ensures write_fault { IsErrOf result StepFault.WriteFault →
        Rose (F.failed_changes tree.old) (F.failed_changes tree.new) }
{
    let done = tree.make_folder(path);
    settled(done)
}

/// Cuts a file to a size in bytes, with the answers of `remove_entry`.
pub fn cut_file<F: Tree>(tree: &mut F, path: &Path, size: u64) -> Result<(), StepFault>
    ensures carries { Carries F.Tree (Cuts path.now size ∷ []) tree.old tree.new result }
    ensures frame { Came F.Tree tree.old tree.new }
    ensures read_fault { result ≢ Err StepFault.ReadFault }
    ensures write_fault { IsErrOf result StepFault.WriteFault →
        Rose (F.failed_changes tree.old) (F.failed_changes tree.new) }
{
    let done = tree.cut(path, size);
    settled(done)
}

/// Writes over the bytes of a file from the offset `at` on, with the answers of `remove_entry`.
pub fn overwrite<F: Tree>(tree: &mut F, path: &Path, at: u64, bytes: &[u8]) -> Result<(), StepFault>
    ensures carries { Carries F.Tree (Writes path.now at bytes.now ∷ []) tree.old tree.new result }
    ensures frame { Came F.Tree tree.old tree.new }
    ensures read_fault { result ≢ Err StepFault.ReadFault }
    ensures write_fault { IsErrOf result StepFault.WriteFault →
        Rose (F.failed_changes tree.old) (F.failed_changes tree.new) }
{
    let done = tree.write_at(path, at, bytes);
    settled(done)
}

/// Makes an empty file, with the answers of `remove_entry`.
pub(crate) fn make_file<F: Tree>(tree: &mut F, path: &Path) -> Result<(), StepFault>
    ensures carries { Carries F.Tree (MakesFile path.now ∷ []) tree.old tree.new result }
    ensures frame { Came F.Tree tree.old tree.new }
    ensures read_fault { result ≢ Err StepFault.ReadFault }
    ensures write_fault { IsErrOf result StepFault.WriteFault →
        Rose (F.failed_changes tree.old) (F.failed_changes tree.new) }
{
    let done = tree.make_file(path);
    settled(done)
}

/// Makes all that was changed durable, with the answers of `remove_entry`.
pub(crate) fn sync<F: Tree>(tree: &mut F) -> Result<(), StepFault>
    ensures carries { Carries F.Tree (Syncs ∷ []) tree.old tree.new result }
    ensures took { Took F.Tree Syncs tree.old tree.new result }
    ensures frame { Came F.Tree tree.old tree.new }
    ensures read_fault { result ≢ Err StepFault.ReadFault }
    ensures write_fault { IsErrOf result StepFault.WriteFault →
        Rose (F.failed_changes tree.old) (F.failed_changes tree.new) }
{
    let done = tree.sync();
    settled(done)
}
