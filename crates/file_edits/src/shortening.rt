// Files that are cut.
ghost use Rattle.std.specs.Prelude.{◌≡◌, ◌≢◌, true, IsTrue, Err, IsErrOf};
ghost use Rattle.cluster_tree.specs.PathValue.{PathValue};
ghost use Rattle.cluster_tree.specs.PathOrder.{path_eq};
ghost use Rattle.cluster_tree.specs.Causes.{Rose};
ghost use Rattle.cluster_tree.specs.Frame.{Came};
ghost use Rattle.file_edits.specs.Answers.{Does};
ghost use Rattle.file_edits.specs.Edits.{file_cut};
ghost use Rattle.file_edits.specs.Own.{OnOwn};
ghost use Rattle.file_edits.specs.Sparing.{Piece, Spares, spares};

use crate::asking::file_size;
use crate::calls::cut;
use cluster_tree::{ChangeCall, FileFault, Path, Tree};
use std::alloc::Global;

/// Cuts the file at a path to a size in bytes where it is longer. Answers `IsFolder` or `Link` where
/// something else stands.
pub fn shorten<F: Tree>(
    alloc: Global,
    tree: &mut F,
    path: &Path,
    size: u64,
) -> Result<(), FileFault>
    ensures exact { IsTrue F.tells →
        Does (file_cut path.now size (F.contents tree.old)) (F.contents tree.new) result }
    ensures frame { Came F.Tree tree.old tree.new }
    ensures own { IsTrue F.tells → OnOwn F.calls (λ q. path_eq q path.now) tree.old tree.new }
    ensures spares { IsTrue F.tells → (piece : Piece) →
        spares piece (ChangeCall.Cut path.now size) ≡ true →
        Spares F.Tree piece tree.old tree.new }
    ensures read_fault { IsErrOf result FileFault.ReadFault →
        Rose (F.failed_reads tree.old) (F.failed_reads tree.new) }
    ensures write_fault { IsErrOf result FileFault.WriteFault →
        Rose (F.failed_changes tree.old) (F.failed_changes tree.new) }
    ensures changed { IsTrue F.tells → (p : PathValue) → result ≢ Err (FileFault.Changed p) }
{
    let there = file_size(alloc, tree, path)?.unwrap_or(0);
    if there <= size {
        return Ok(());
    }
    cut(alloc, tree, path, size)
}
