// What comes behind the steps: the label, the control file, and the end of the mark.
ghost use Rattle.std.specs.Prelude.{◌≡◌, ◌≢◌, [], ◌∷◌, Err, IsErrOf};
ghost use Rattle.cluster_tree.specs.Causes.{Rose};
ghost use Rattle.cluster_tree.specs.Change.{Removes, Writes};
ghost use Rattle.cluster_tree.specs.Frame.{Came};
ghost use Rattle.marked_runs.specs.Runs.{ended};
ghost use Rattle.rewind_writes.specs.Steps.{opened};
ghost use Rattle.resumed_laws.specs.Resumed.{resumed_closing};
ghost use Rattle.resumed_writes.specs.Tried.{Tries};

use crate::StoredPerformFault;
use crate::changing::{overwrite, remove_entry, sync, write_again};
use crate::faults::at_target;
use cluster_tree::{Path, Tree};
use rewind_writes::FileBytes;

// Empties or makes a file, and writes it.
fn put_again<F: Tree>(tree: &mut F, file: FileBytes) -> Result<(), StoredPerformFault>
    ensures tries { Tries F.Tree
        (opened (F.contents tree.old) file.path ∷ Writes file.path 0 file.bytes.items ∷ [])
        tree.old tree.new result }
    ensures frame { Came F.Tree tree.old tree.new }
    ensures read_fault { IsErrOf result StoredPerformFault.ReadFault →
        Rose (F.failed_reads tree.old) (F.failed_reads tree.new) }
    ensures write_fault { IsErrOf result StoredPerformFault.WriteFault →
        Rose (F.failed_changes tree.old) (F.failed_changes tree.new) }
{
    let FileBytes { path, bytes } = file;
    let done = write_again(tree, &path, &bytes);
    at_target(done, path)
}

// Writes over a file.
fn put_over<F: Tree>(tree: &mut F, file: FileBytes) -> Result<(), StoredPerformFault>
    ensures tries { Tries F.Tree (Writes file.path 0 file.bytes.items ∷ []) tree.old tree.new result }
    ensures frame { Came F.Tree tree.old tree.new }
    ensures read_fault { result ≢ Err StoredPerformFault.ReadFault }
    ensures write_fault { IsErrOf result StoredPerformFault.WriteFault →
        Rose (F.failed_changes tree.old) (F.failed_changes tree.new) }
{
    let FileBytes { path, bytes } = file;
    let done = overwrite(tree, &path, &bytes);
    at_target(done, path)
}

/// Empties or makes the label and writes it, and then writes the control file.
pub(crate) fn put_closing<F: Tree>(
    tree: &mut F,
    label: FileBytes,
    control: FileBytes,
) -> Result<(), StoredPerformFault>
    ensures tries { Tries F.Tree (resumed_closing (F.contents tree.old) label control)
        tree.old tree.new result }
    ensures frame { Came F.Tree tree.old tree.new }
    ensures read_fault { IsErrOf result StoredPerformFault.ReadFault →
        Rose (F.failed_reads tree.old) (F.failed_reads tree.new) }
    ensures write_fault { IsErrOf result StoredPerformFault.WriteFault →
        Rose (F.failed_changes tree.old) (F.failed_changes tree.new) }
{
    match put_again(tree, label) {
        Ok(()) => put_over(tree, control),
        Err(fault) => Err(fault),
    }
}

// Removes the mark.
fn remove_mark<F: Tree>(tree: &mut F, mark: Path) -> Result<(), StoredPerformFault>
    ensures tries { Tries F.Tree (Removes mark ∷ []) tree.old tree.new result }
    ensures frame { Came F.Tree tree.old tree.new }
    ensures read_fault { result ≢ Err StoredPerformFault.ReadFault }
    ensures write_fault { IsErrOf result StoredPerformFault.WriteFault →
        Rose (F.failed_changes tree.old) (F.failed_changes tree.new) }
{
    let done = remove_entry(tree, &mark);
    at_target(done, mark)
}

/// Ends the mark, between two syncs.
pub(crate) fn unmark<F: Tree>(tree: &mut F, mark: Path) -> Result<(), StoredPerformFault>
    ensures tries { Tries F.Tree (ended mark) tree.old tree.new result }
    ensures frame { Came F.Tree tree.old tree.new }
    ensures read_fault { result ≢ Err StoredPerformFault.ReadFault }
    ensures write_fault { IsErrOf result StoredPerformFault.WriteFault →
        Rose (F.failed_changes tree.old) (F.failed_changes tree.new) }
{
    match sync(tree) {
        Ok(()) => match remove_mark(tree, mark) {
            Ok(()) => sync(tree),
            Err(fault) => Err(fault),
        },
        Err(fault) => Err(fault),
    }
}
