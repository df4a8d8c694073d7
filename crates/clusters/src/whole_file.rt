// Reading a file of a known length into a buffer.
ghost use Rattle.std.specs.Prelude.{◌≡◌, ◌≢◌, [], ◌∷◌, length, IfOk, IfErr, IsTrue, Ok, Err, IsErrOf};
ghost use Rattle.cluster_tree.specs.PathValue.{PathValue};
ghost use Rattle.cluster_tree.specs.Contents.{entry_at};
ghost use Rattle.cluster_tree.specs.Tree.{file_of};
ghost use Rattle.cluster_tree.specs.Causes.{IsAmong, Rose};
ghost use Rattle.cluster_tree.specs.Frame.{Reads};
ghost use Rattle.clusters.specs.WholeFile.{found_of};

use crate::ClusterFault;
use cluster_tree::{Path, Tree, TreeFault};

/// What stands at a path where a file of a known length is looked for.
#[derive(Clone, Copy, Debug, PartialEq, Eq)]
pub enum Found {
    /// There is no file: nothing stands there, or a folder or a link does.
    Missing,
    /// A file of this many bytes, which is another number.
    OtherSize(u64),
    /// The file, whose bytes are in the buffer.
    Filled,
}

/// Fills `into` with the file at a path, where the file's length is that of `into`.
///
/// Answers `ReadFault` where the device failed, and `Changed` with the path where the file had the
/// length and then could not be read. What `into` holds is open unless the answer is `Filled`.
pub fn read_whole<F: Tree>(tree: &mut F, path: Path, into: &mut [u8]) -> Result<Found, ClusterFault>
    ensures found { IsTrue F.tells → IfOk result (λ found.
        found ≡ found_of (length into.old) (file_of (entry_at (F.contents tree.old) path))) }
    ensures filled { IsTrue F.tells → result ≡ Ok Found.Filled →
        file_of (entry_at (F.contents tree.old) path) ≡ Ok into.new }
    ensures reads { Reads F.Tree tree.old tree.new }
    ensures read_fault { IsErrOf result ClusterFault.ReadFault →
        Rose (F.failed_reads tree.old) (F.failed_reads tree.new) }
    ensures changed { IsTrue F.tells → (p : PathValue) → result ≢ Err (ClusterFault.Changed p) }
    ensures row { IfErr result (IsAmong
        (ClusterFault.ReadFault ∷ ClusterFault.Changed path ∷ [])) }
{
    let size = match tree.size(&path) {
        Ok(size) => size,
        Err(TreeFault::Failed) => return Err(ClusterFault::ReadFault),
        Err(_) => return Ok(Found::Missing),
    };
    if size != into.len() as u64 {
        return Ok(Found::OtherSize(size));
    }
    match tree.read_at(&path, 0, into) {
        Ok(()) => Ok(Found::Filled),
        Err(TreeFault::Failed) => Err(ClusterFault::ReadFault),
        Err(_) => Err(ClusterFault::Changed(path)),
    }
}
