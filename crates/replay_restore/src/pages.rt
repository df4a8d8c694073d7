// The files of main forks, brought back to their sizes.
ghost use Rattle.std.specs.Prelude.{◌≡◌, ◌≢◌, IsTrue, Ok, Err, IsErrOf, None, true};
ghost use Rattle.cluster_tree.specs.Causes.{Rose};
ghost use Rattle.cluster_tree.specs.Contents.{entry_at, is_folder, parent};
ghost use Rattle.cluster_tree.specs.Frame.{Came};
ghost use Rattle.cluster_tree.specs.PathOrder.{path_eq};
ghost use Rattle.cluster_tree.specs.Tree.{file_of, size_of};
ghost use Rattle.file_edits.specs.Answers.{Does};
ghost use Rattle.file_edits.specs.Edits.{edited, padded};
ghost use Rattle.file_edits.specs.Own.{OnOwn};
ghost use Rattle.file_edits.specs.Sparing.{Piece, Spares, spares};
ghost use Rattle.replay_restore.specs.Filled.{FitsFile, resized};

use cluster_tree::{ChangeCall, FileFault, Path, Tree};
use file_edits::file_size;
use piece_copies::{cut, make_file, write};
use std::alloc::Global;

// As many zeros as are written at once.
const PIECE: usize = 8192;

// Lengthens a file of a known size by zeros, where it is shorter than this.
fn pad_to<F: Tree>(
    alloc: Global,
    tree: &mut F,
    path: &Path,
    from: u64,
    to: u64,
) -> Result<(), FileFault>
    ensures exact { IsTrue F.tells →
        size_of (file_of (entry_at (F.contents tree.old) path.now)) ≡ Ok from →
        Does (Ok (edited path.now (padded to) (F.contents tree.old))) (F.contents tree.new) result }
    ensures frame { Came F.Tree tree.old tree.new }
    ensures own { IsTrue F.tells → OnOwn F.calls (λ q. path_eq q path.now) tree.old tree.new }
    ensures spares { IsTrue F.tells → (piece : Piece) →
        spares piece (ChangeCall.Cut path.now from) ≡ true → Spares F.Tree piece tree.old tree.new }
    ensures read_fault { result ≢ Err FileFault.ReadFault }
    ensures write_fault { IsErrOf result FileFault.WriteFault →
        Rose (F.failed_changes tree.old) (F.failed_changes tree.new) }
{
    let zeros = [0; PIECE];
    let mut size = from;
    while size < to {
        let count = (to - size).min(PIECE as u64);
        write(alloc, tree, path, size, &zeros[..count as usize])?;
        size += count;
    }
    Ok(())
}

// Gives a file of a known size this size.
#[tactic(auto, using(crate::proofs::PageLemmas::page_steps))]
fn resize<F: Tree>(
    alloc: Global,
    tree: &mut F,
    path: &Path,
    there: u64,
    size: u64,
) -> Result<(), FileFault>
    ensures exact { IsTrue F.tells →
        size_of (file_of (entry_at (F.contents tree.old) path.now)) ≡ Ok there →
        Does (Ok (edited path.now (resized size) (F.contents tree.old))) (F.contents tree.new)
        result }
    ensures frame { Came F.Tree tree.old tree.new }
    ensures own { IsTrue F.tells → OnOwn F.calls (λ q. path_eq q path.now) tree.old tree.new }
    ensures spares { IsTrue F.tells → (piece : Piece) →
        size_of (file_of (entry_at (F.contents tree.old) path.now)) ≡ Ok there →
        spares piece (ChangeCall.Cut path.now size) ≡ true → Spares F.Tree piece tree.old tree.new }
    ensures read_fault { result ≢ Err FileFault.ReadFault }
    ensures write_fault { IsErrOf result FileFault.WriteFault →
        Rose (F.failed_changes tree.old) (F.failed_changes tree.new) }
{
    if there > size {
        cut(alloc, tree, path, size)
    } else {
        pad_to(alloc, tree, path, there, size)
    }
}

// Makes an empty file, and lengthens it to this size.
fn make_sized<F: Tree>(alloc: Global, tree: &mut F, path: &Path, size: u64) -> Result<(), FileFault>
    ensures exact { IsTrue F.tells → entry_at (F.contents tree.old) path.now ≡ None →
        is_folder (entry_at (F.contents tree.old) (parent path.now)) ≡ true →
        Does (Ok (edited path.now (resized size) (F.contents tree.old))) (F.contents tree.new)
        result }
    ensures frame { Came F.Tree tree.old tree.new }
    ensures own { IsTrue F.tells → OnOwn F.calls (λ q. path_eq q path.now) tree.old tree.new }
    ensures spares { IsTrue F.tells → (piece : Piece) →
        entry_at (F.contents tree.old) path.now ≡ None →
        is_folder (entry_at (F.contents tree.old) (parent path.now)) ≡ true →
        Spares F.Tree piece tree.old tree.new }
    ensures read_fault { result ≢ Err FileFault.ReadFault }
    ensures write_fault { IsErrOf result FileFault.WriteFault →
        Rose (F.failed_changes tree.old) (F.failed_changes tree.new) }
{
    make_file(alloc, tree, path)?;
    pad_to(alloc, tree, path, 0, size)
}

/// Gives the file at a path a size, cut or lengthened by zeros, and makes it where nothing stands.
#[tactic(auto, using(crate::proofs::PageLemmas::page_steps))]
pub(crate) fn fill_page<F: Tree>(
    alloc: Global,
    tree: &mut F,
    path: &Path,
    size: u64,
) -> Result<(), FileFault>
    ensures exact { IsTrue F.tells → FitsFile (entry_at (F.contents tree.old) path.now) →
        is_folder (entry_at (F.contents tree.old) (parent path.now)) ≡ true →
        Does (Ok (edited path.now (resized size) (F.contents tree.old))) (F.contents tree.new)
        result }
    ensures frame { Came F.Tree tree.old tree.new }
    ensures own { IsTrue F.tells → OnOwn F.calls (λ q. path_eq q path.now) tree.old tree.new }
    ensures spares { IsTrue F.tells → (piece : Piece) →
        FitsFile (entry_at (F.contents tree.old) path.now) →
        is_folder (entry_at (F.contents tree.old) (parent path.now)) ≡ true →
        spares piece (ChangeCall.Cut path.now size) ≡ true → Spares F.Tree piece tree.old tree.new }
    ensures read_fault { IsErrOf result FileFault.ReadFault →
        Rose (F.failed_reads tree.old) (F.failed_reads tree.new) }
    ensures write_fault { IsErrOf result FileFault.WriteFault →
        Rose (F.failed_changes tree.old) (F.failed_changes tree.new) }
{
    match file_size(alloc, tree, path)? {
        None => make_sized(alloc, tree, path, size),
        Some(there) => resize(alloc, tree, path, there, size),
    }
}
