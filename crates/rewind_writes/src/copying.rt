// Bytes of files, copied piece by piece. None takes memory.
ghost use Rattle.std.specs.Prelude.{◌≡◌, ◌≢◌, ◌+◌, ◌<◌, ◌^◌, ℕ, List, [], ◌∷◌, false, length, Ok, Err, IsErrOf};
ghost use Rattle.std.specs.List.{list_any};
ghost use Rattle.cluster_tree.specs.Causes.{Rose};
ghost use Rattle.cluster_tree.specs.Change.{MakesFile, Writes, is_on};
ghost use Rattle.cluster_tree.specs.Contents.{Contents, entry_at};
ghost use Rattle.cluster_tree.specs.Frame.{Came};
ghost use Rattle.cluster_tree.specs.Tree.{file_of, range_of};
ghost use Rattle.marked_runs.specs.Carried.{Carries};
ghost use Rattle.marked_runs.specs.Runs.{writes_at};
ghost use Rattle.marked_runs.specs.Settled.{fault_of};
ghost use Rattle.rewind_writes.specs.Looks.{of_look};
ghost use Rattle.rewind_writes.specs.Steps.{opened};

use cluster_tree::{Kind, Path, Tree, TreeFault};
use marked_runs::{StepFault, cut_file, overwrite};

// Why a look broke off that nothing was to refuse.
fn of_look(fault: TreeFault) -> StepFault
    ensures { result ≡ of_look fault }
{
    match fault {
        TreeFault::Failed => StepFault::ReadFault,
        _ => StepFault::Contradicted,
    }
}

// Why a change broke off that nothing was to refuse.
fn of_change(fault: TreeFault) -> StepFault
    ensures { result ≡ fault_of fault }
{
    match fault {
        TreeFault::Failed => StepFault::WriteFault,
        _ => StepFault::Contradicted,
    }
}

// Copies as many bytes of a file as the piece has to another one, from this offset on in both. The piece
// then holds them.
fn copy_piece<F: Tree>(
    tree: &mut F,
    from: &Path,
    to: &Path,
    at: u64,
    piece: &mut [u8],
) -> Result<(), StepFault>
    ensures carries { (bytes : List ℕ) →
        range_of (file_of (entry_at (F.contents tree.old) from.now)) at (length piece.old) ≡ Ok bytes →
        Carries F.Tree (Writes to.now at bytes ∷ []) tree.old tree.new result }
    ensures frame { Came F.Tree tree.old tree.new }
    ensures read_fault { IsErrOf result StepFault.ReadFault →
        Rose (F.failed_reads tree.old) (F.failed_reads tree.new) }
    ensures write_fault { IsErrOf result StepFault.WriteFault →
        Rose (F.failed_changes tree.old) (F.failed_changes tree.new) }
{
    match tree.read_at(from, at, piece) {
        Ok(()) => overwrite(tree, to, at, piece),
        Err(fault) => Err(of_look(fault)),
    }
}

/// Copies so many bytes of a file from the offset `at` on to the same place of another, by pieces of
/// the buffer's length, which are one range once joined. Answers `ReadFault` where a read failed,
/// `WriteFault` where a changing call did, and `Contradicted` where the tree refuses one.
pub fn copy_range<F: Tree>(
    tree: &mut F,
    from: &Path,
    to: &Path,
    at: u64,
    size: u64,
    buffer: &mut [u8],
) -> Result<(), StepFault>
    requires fit { at + size < 2 ^ 64 }
    requires some { 0 < length buffer.old }
    ensures carries { (bytes : List ℕ) →
        range_of (file_of (entry_at (F.contents tree.old) from.now)) at size ≡ Ok bytes →
        list_any (is_on from.now) (writes_at to.now at bytes) ≡ false →
        Carries F.Tree (writes_at to.now at bytes) tree.old tree.new result }
    ensures frame { Came F.Tree tree.old tree.new }
    ensures read_fault { IsErrOf result StepFault.ReadFault →
        Rose (F.failed_reads tree.old) (F.failed_reads tree.new) }
    ensures write_fault { IsErrOf result StepFault.WriteFault →
        Rose (F.failed_changes tree.old) (F.failed_changes tree.new) }
{
    let mut done = 0;
    while done < size {
        let piece = (size - done).min(buffer.len() as u64) as usize;
        match copy_piece(tree, from, to, at + done, &mut buffer[..piece]) {
            Ok(()) => done += piece as u64,
            Err(e) => return Err(e),
        }
    }
    Ok(())
}

// Makes an empty file.
fn make_file<F: Tree>(tree: &mut F, path: &Path) -> Result<(), StepFault>
    ensures carries { Carries F.Tree (MakesFile path.now ∷ []) tree.old tree.new result }
    ensures frame { Came F.Tree tree.old tree.new }
    ensures read_fault { result ≢ Err StepFault.ReadFault }
    ensures write_fault { IsErrOf result StepFault.WriteFault →
        Rose (F.failed_changes tree.old) (F.failed_changes tree.new) }
{
    match tree.make_file(path) {
        Ok(()) => Ok(()),
        Err(fault) => Err(of_change(fault)),
    }
}

/// Empties the file at a path, or makes one where none is, with the answers of `copy_range`.
pub(crate) fn open_file<F: Tree>(tree: &mut F, path: &Path) -> Result<(), StepFault>
    ensures carries { (c : Contents) → Carries F.Tree (opened c path.now ∷ []) tree.old tree.new result }
    ensures frame { Came F.Tree tree.old tree.new }
    ensures read_fault { IsErrOf result StepFault.ReadFault →
        Rose (F.failed_reads tree.old) (F.failed_reads tree.new) }
    ensures write_fault { IsErrOf result StepFault.WriteFault →
        Rose (F.failed_changes tree.old) (F.failed_changes tree.new) }
{
    match tree.kind(path) {
        Ok(Kind::Absent) => make_file(tree, path),
        Ok(Kind::File) => cut_file(tree, path, 0),
        Ok(Kind::Folder) => Err(StepFault::Contradicted),
        Err(fault) => Err(of_look(fault)),
    }
}
