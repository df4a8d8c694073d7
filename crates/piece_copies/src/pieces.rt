// The bytes of a file, copied piece by piece.
ghost use Rattle.std.specs.Prelude.{◌≡◌, ◌≢◌, ◌+◌, ◌<◌, ◌≤◌, ℕ, List, [], length, take, Some, IsTrue, Ok, Err, IsErrOf};
ghost use Rattle.std.specs.FinMap.{insert};
ghost use Rattle.cluster_tree.specs.Causes.{Rose};
ghost use Rattle.cluster_tree.specs.Contents.{FileEntry, entry_at};
ghost use Rattle.cluster_tree.specs.Frame.{Came};
ghost use Rattle.cluster_tree.specs.PathOrder.{path_eq};
ghost use Rattle.file_edits.specs.Answers.{Does};
ghost use Rattle.file_edits.specs.Own.{OnOwn};

use crate::calls::write;
use cluster_tree::{FileFault, Path, Tree};
use file_edits::read_or_zeros;
use std::alloc::Global;

// Copies as many bytes of a file as the piece has, from this offset on, to the end of a copy that
// has the bytes before them. The piece then holds them.
fn copy_piece<F: Tree>(
    alloc: Global,
    tree: &mut F,
    from: &Path,
    to: &Path,
    at: u64,
    piece: &mut [u8],
) -> Result<(), FileFault>
    ensures exact { IsTrue F.tells → (bytes : List ℕ) →
        entry_at (F.contents tree.old) from.now ≡ Some (FileEntry bytes) →
        entry_at (F.contents tree.old) to.now ≡ Some (FileEntry (take at bytes)) →
        at + length piece.old ≤ length bytes → Does (Ok (insert (F.contents tree.old) to.now
        (FileEntry (take (at + length piece.old) bytes)))) (F.contents tree.new) result }
    ensures frame { Came F.Tree tree.old tree.new }
    ensures own { IsTrue F.tells → OnOwn F.calls (λ q. path_eq q to.now) tree.old tree.new }
    ensures read_fault { IsErrOf result FileFault.ReadFault →
        Rose (F.failed_reads tree.old) (F.failed_reads tree.new) }
    ensures write_fault { IsErrOf result FileFault.WriteFault →
        Rose (F.failed_changes tree.old) (F.failed_changes tree.new) }
{
    read_or_zeros(alloc, tree, from, at, piece)?;
    write(alloc, tree, to, at, piece)
}

/// Copies a file of `size` bytes to an empty file at another path, by pieces of the buffer's length.
/// Nothing is synced, and what the copy and the buffer hold after an error is open.
///
/// Answers `IsFolder` or `Link` where something else stands at `from`, and `Changed` where the tree
/// refuses a write. `ReadFault`, `WriteFault` and `OutOfMemory` may come at any point.
pub fn copy_bytes<F: Tree>(
    alloc: Global,
    tree: &mut F,
    from: &Path,
    to: &Path,
    size: u64,
    buffer: &mut [u8],
) -> Result<(), FileFault>
    requires some { 0 < length buffer.old }
    ensures exact { IsTrue F.tells → (bytes : List ℕ) → entry_at (F.contents tree.old) from.now ≡
        Some (FileEntry bytes) → length bytes ≡ size → from.now ≢ to.now → entry_at (F.contents
        tree.old) to.now ≡ Some (FileEntry []) → Does (Ok (insert (F.contents tree.old) to.now
        (FileEntry bytes))) (F.contents tree.new) result }
    ensures frame { Came F.Tree tree.old tree.new }
    ensures own { IsTrue F.tells → OnOwn F.calls (λ q. path_eq q to.now) tree.old tree.new }
    ensures read_fault { IsErrOf result FileFault.ReadFault →
        Rose (F.failed_reads tree.old) (F.failed_reads tree.new) }
    ensures write_fault { IsErrOf result FileFault.WriteFault →
        Rose (F.failed_changes tree.old) (F.failed_changes tree.new) }
{
    let mut done = 0;
    while done < size {
        let piece = (size - done).min(buffer.len() as u64) as usize;
        copy_piece(alloc, tree, from, to, done, &mut buffer[..piece])?;
        done += piece as u64;
    }
    Ok(())
}
