// Single changes, which the target may refuse, and those that ask first. None takes memory.
ghost use Rattle.std.specs.Prelude.{◌≡◌, ◌≢◌, [], ◌∷◌, Err, IsErrOf};
ghost use Rattle.cluster_tree.specs.Causes.{Rose};
ghost use Rattle.cluster_tree.specs.Change.{Cuts, MakesFile, MakesFolder, Removes, Syncs, Writes};
ghost use Rattle.cluster_tree.specs.Frame.{Came};
ghost use Rattle.marked_runs.specs.Settled.{settled};
ghost use Rattle.rewind_writes.specs.Steps.{opened};
ghost use Rattle.rewind_writes.specs.declared.step.Step.TheVariants as step;
ghost use Rattle.resumed_laws.specs.Resumed.{resumed_of};
ghost use Rattle.resumed_writes.specs.Outcomes.{at_target};
ghost use Rattle.resumed_writes.specs.Tried.{Tries};

use crate::StoredPerformFault;
use crate::looks::has_kind;
use cluster_tree::{Kind, Path, Tree, TreeFault};
use marked_runs::StepFault;

// The answer of a changing call: a refusal contradicts the plan.
fn settled(done: Result<(), TreeFault>) -> Result<(), StepFault>
    ensures { result ≡ settled done }
{
    match done {
        Ok(()) => Ok(()),
        Err(TreeFault::Failed) => Err(StepFault::WriteFault),
        Err(_) => Err(StepFault::Contradicted),
    }
}

// Makes an empty folder.
pub(crate) fn make_folder<F: Tree>(tree: &mut F, path: &Path) -> Result<(), StepFault>
    ensures tries { Tries F.Tree (MakesFolder path.now ∷ []) tree.old tree.new
        (at_target path.now result) }
    ensures frame { Came F.Tree tree.old tree.new }
    ensures read_fault { result ≢ Err StepFault.ReadFault }
    ensures write_fault { IsErrOf result StepFault.WriteFault →
        Rose (F.failed_changes tree.old) (F.failed_changes tree.new) }
{
    let done = tree.make_folder(path);
    settled(done)
}

// Makes an empty file.
fn make_file<F: Tree>(tree: &mut F, path: &Path) -> Result<(), StepFault>
    ensures tries { Tries F.Tree (MakesFile path.now ∷ []) tree.old tree.new
        (at_target path.now result) }
    ensures frame { Came F.Tree tree.old tree.new }
    ensures read_fault { result ≢ Err StepFault.ReadFault }
    ensures write_fault { IsErrOf result StepFault.WriteFault →
        Rose (F.failed_changes tree.old) (F.failed_changes tree.new) }
{
    let done = tree.make_file(path);
    settled(done)
}

// Removes a file or an empty folder.
pub(crate) fn remove_entry<F: Tree>(tree: &mut F, path: &Path) -> Result<(), StepFault>
    ensures tries { Tries F.Tree (Removes path.now ∷ []) tree.old tree.new
        (at_target path.now result) }
    ensures frame { Came F.Tree tree.old tree.new }
    ensures read_fault { result ≢ Err StepFault.ReadFault }
    ensures write_fault { IsErrOf result StepFault.WriteFault →
        Rose (F.failed_changes tree.old) (F.failed_changes tree.new) }
{
    let done = tree.remove(path);
    settled(done)
}

// Cuts a file to a size.
pub(crate) fn cut_file<F: Tree>(tree: &mut F, path: &Path, size: u64) -> Result<(), StepFault>
    ensures tries { Tries F.Tree (Cuts path.now size ∷ []) tree.old tree.new
        (at_target path.now result) }
    ensures frame { Came F.Tree tree.old tree.new }
    ensures read_fault { result ≢ Err StepFault.ReadFault }
    ensures write_fault { IsErrOf result StepFault.WriteFault →
        Rose (F.failed_changes tree.old) (F.failed_changes tree.new) }
{
    let done = tree.cut(path, size);
    settled(done)
}

// Writes over a file from its start on.
pub(crate) fn overwrite<F: Tree>(tree: &mut F, path: &Path, bytes: &[u8]) -> Result<(), StepFault>
    ensures tries { Tries F.Tree (Writes path.now 0 bytes.now ∷ []) tree.old tree.new
        (at_target path.now result) }
    ensures frame { Came F.Tree tree.old tree.new }
    ensures read_fault { result ≢ Err StepFault.ReadFault }
    ensures write_fault { IsErrOf result StepFault.WriteFault →
        Rose (F.failed_changes tree.old) (F.failed_changes tree.new) }
{
    let done = tree.write_at(path, 0, bytes);
    settled(done)
}

// Makes all that was changed durable, which nothing refuses.
pub(crate) fn sync<F: Tree>(tree: &mut F) -> Result<(), StoredPerformFault>
    ensures tries { Tries F.Tree (Syncs ∷ []) tree.old tree.new result }
    ensures frame { Came F.Tree tree.old tree.new }
    ensures read_fault { result ≢ Err StoredPerformFault.ReadFault }
    ensures write_fault { IsErrOf result StoredPerformFault.WriteFault →
        Rose (F.failed_changes tree.old) (F.failed_changes tree.new) }
{
    match tree.sync() {
        Ok(()) => Ok(()),
        Err(_) => Err(StoredPerformFault::WriteFault),
    }
}

// Makes a folder, unless one is there.
pub(crate) fn make_missing<F: Tree>(tree: &mut F, path: &Path) -> Result<(), StepFault>
    ensures tries { Tries F.Tree (resumed_of (F.contents tree.old) (step.Folder path.now)) tree.old
        tree.new (at_target path.now result) }
    ensures frame { Came F.Tree tree.old tree.new }
    ensures read_fault { IsErrOf result StepFault.ReadFault →
        Rose (F.failed_reads tree.old) (F.failed_reads tree.new) }
    ensures write_fault { IsErrOf result StepFault.WriteFault →
        Rose (F.failed_changes tree.old) (F.failed_changes tree.new) }
{
    match has_kind(tree, path, Kind::Folder) {
        Ok(true) => Ok(()),
        Ok(false) => make_folder(tree, path),
        Err(fault) => Err(fault),
    }
}

// Removes an entry, unless none is there.
pub(crate) fn remove_present<F: Tree>(tree: &mut F, path: &Path) -> Result<(), StepFault>
    ensures tries { Tries F.Tree (resumed_of (F.contents tree.old) (step.Remove path.now)) tree.old
        tree.new (at_target path.now result) }
    ensures frame { Came F.Tree tree.old tree.new }
    ensures read_fault { IsErrOf result StepFault.ReadFault →
        Rose (F.failed_reads tree.old) (F.failed_reads tree.new) }
    ensures write_fault { IsErrOf result StepFault.WriteFault →
        Rose (F.failed_changes tree.old) (F.failed_changes tree.new) }
{
    match has_kind(tree, path, Kind::Absent) {
        Ok(true) => Ok(()),
        Ok(false) => remove_entry(tree, path),
        Err(fault) => Err(fault),
    }
}

// Empties the file at a path, or makes one where none is.
pub(crate) fn open_again<F: Tree>(tree: &mut F, path: &Path) -> Result<(), StepFault>
    ensures tries { Tries F.Tree (opened (F.contents tree.old) path.now ∷ []) tree.old tree.new
        (at_target path.now result) }
    ensures frame { Came F.Tree tree.old tree.new }
    ensures read_fault { IsErrOf result StepFault.ReadFault →
        Rose (F.failed_reads tree.old) (F.failed_reads tree.new) }
    ensures write_fault { IsErrOf result StepFault.WriteFault →
        Rose (F.failed_changes tree.old) (F.failed_changes tree.new) }
{
    match has_kind(tree, path, Kind::File) {
        Ok(true) => cut_file(tree, path, 0),
        Ok(false) => make_file(tree, path),
        Err(fault) => Err(fault),
    }
}

// The same, and then writes these bytes.
pub(crate) fn write_again<F: Tree>(tree: &mut F, path: &Path, bytes: &[u8]) -> Result<(), StepFault>
    ensures tries { Tries F.Tree
        (opened (F.contents tree.old) path.now ∷ Writes path.now 0 bytes.now ∷ [])
        tree.old tree.new (at_target path.now result) }
    ensures frame { Came F.Tree tree.old tree.new }
    ensures read_fault { IsErrOf result StepFault.ReadFault →
        Rose (F.failed_reads tree.old) (F.failed_reads tree.new) }
    ensures write_fault { IsErrOf result StepFault.WriteFault →
        Rose (F.failed_changes tree.old) (F.failed_changes tree.new) }
{
    match open_again(tree, path) {
        Ok(()) => overwrite(tree, path, bytes),
        Err(fault) => Err(fault),
    }
}
