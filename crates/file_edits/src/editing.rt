// Files that are edited in place, and made where nothing stands.
ghost use Rattle.std.specs.Prelude.{◌≡◌, ◌≢◌, ◌<◌, ◌≤◌, true, length, IsTrue, IfOk, Ok, Err, IsErrOf};
ghost use Rattle.cluster_tree.specs.PathValue.{PathValue, Holds};
ghost use Rattle.cluster_tree.specs.PathOrder.{path_eq};
ghost use Rattle.cluster_tree.specs.Contents.{entry_at};
ghost use Rattle.cluster_tree.specs.Tree.{file_of, size_of};
ghost use Rattle.cluster_tree.specs.Causes.{Rose};
ghost use Rattle.cluster_tree.specs.Frame.{Came};
ghost use Rattle.file_edits.specs.Answers.{Does};
ghost use Rattle.file_edits.specs.Edits.{edited, file_edited, laid, on_way, padded};
ghost use Rattle.file_edits.specs.Own.{OnOwn};
ghost use Rattle.file_edits.specs.Sparing.{Piece, Spares, spares};

use crate::asking::file_size;
use crate::calls::{make_file, write};
use crate::ways::make_way;
use cluster_tree::{ChangeCall, FileFault, Path, Tree};
use std::alloc::Global;

// As many zeros as are written at once.
const PIECE: usize = 8192;

/// The size in bytes of a file below a root, which is made empty, with the folders on its way, where
/// nothing stands. Answers `IsFolder` or `Link` where something else does, and as `make_way`.
#[tactic(auto, using(crate::proofs::EditLemmas::ensure_steps))]
pub fn ensure_file<F: Tree>(
    alloc: Global,
    tree: &mut F,
    root: &Path,
    path: &Path,
) -> Result<u64, FileFault>
    requires held { Holds root.now path.now }
    requires deeper { length root.now.parts < length path.now.parts }
    ensures exact { IsTrue F.tells →
        Does (file_edited root.now path.now (λ bytes. bytes) (F.contents tree.old))
        (F.contents tree.new) result }
    ensures size { IsTrue F.tells → IfOk result (λ size.
        size_of (file_of (entry_at (F.contents tree.new) path.now)) ≡ Ok size) }
    ensures frame { Came F.Tree tree.old tree.new }
    ensures own { IsTrue F.tells → OnOwn F.calls (on_way root.now path.now) tree.old tree.new }
    ensures spares { IsTrue F.tells → (piece : Piece) → Spares F.Tree piece tree.old tree.new }
    ensures read_fault { IsErrOf result FileFault.ReadFault →
        Rose (F.failed_reads tree.old) (F.failed_reads tree.new) }
    ensures write_fault { IsErrOf result FileFault.WriteFault →
        Rose (F.failed_changes tree.old) (F.failed_changes tree.new) }
    ensures changed { IsTrue F.tells → (p : PathValue) → result ≢ Err (FileFault.Changed p) }
{
    let found = file_size(alloc, tree, path)?;
    match found {
        Some(size) => Ok(size),
        None => {
            make_way(alloc, tree, root, path)?;
            make_file(alloc, tree, path)?;
            Ok(0)
        }
    }
}

// Lengthens a file of a known size by zeros.
fn pad_to<F: Tree>(
    alloc: Global,
    tree: &mut F,
    path: &Path,
    from: u64,
    to: u64,
) -> Result<(), FileFault>
    ensures exact { IsTrue F.tells →
        size_of (file_of (entry_at (F.contents tree.old) path.now)) ≡ Ok from →
        Does (Ok (edited path.now (padded to) (F.contents tree.old))) (F.contents tree.new) result }
    ensures frame { Came F.Tree tree.old tree.new }
    ensures own { IsTrue F.tells → OnOwn F.calls (λ q. path_eq q path.now) tree.old tree.new }
    ensures spares { IsTrue F.tells → (piece : Piece) →
        spares piece (ChangeCall.Cut path.now from) ≡ true →
        Spares F.Tree piece tree.old tree.new }
    ensures read_fault { result ≢ Err FileFault.ReadFault }
    ensures write_fault { IsErrOf result FileFault.WriteFault →
        Rose (F.failed_changes tree.old) (F.failed_changes tree.new) }
{
    let zeros = [0; PIECE];
    let mut size = from;
    while size < to {
        let count = (to - size).min(PIECE as u64);
        write(alloc, tree, path, size, &zeros[..count as usize])?;
        size += count;
    }
    Ok(())
}

/// Lays bytes over a file below a root from the offset `at` on, once it is lengthened by zeros to
/// `size` bytes where it has fewer. The file and the folders on its way are made where nothing stands.
/// Answers as `ensure_file`.
pub fn lay<F: Tree>(
    alloc: Global,
    tree: &mut F,
    root: &Path,
    path: &Path,
    size: u64,
    at: u64,
    bytes: &[u8],
) -> Result<(), FileFault>
    requires held { Holds root.now path.now }
    requires deeper { length root.now.parts < length path.now.parts }
    requires within { at ≤ size }
    ensures exact { IsTrue F.tells →
        Does (file_edited root.now path.now (laid size at bytes.now) (F.contents tree.old))
        (F.contents tree.new) result }
    ensures frame { Came F.Tree tree.old tree.new }
    ensures own { IsTrue F.tells → OnOwn F.calls (on_way root.now path.now) tree.old tree.new }
    ensures spares { IsTrue F.tells → (piece : Piece) →
        spares piece (ChangeCall.Write path.now at (length bytes.now)) ≡ true →
        Spares F.Tree piece tree.old tree.new }
    ensures read_fault { IsErrOf result FileFault.ReadFault →
        Rose (F.failed_reads tree.old) (F.failed_reads tree.new) }
    ensures write_fault { IsErrOf result FileFault.WriteFault →
        Rose (F.failed_changes tree.old) (F.failed_changes tree.new) }
    ensures changed { IsTrue F.tells → (p : PathValue) → result ≢ Err (FileFault.Changed p) }
{
    let there = ensure_file(alloc, tree, root, path)?;
    pad_to(alloc, tree, path, there, size)?;
    write(alloc, tree, path, at, bytes)
}
