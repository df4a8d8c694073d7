// Reading a whole file.
ghost use Rattle.std.specs.Prelude.{◌≡◌, ◌≢◌, [], ◌∷◌, IfErr, IfOk, IsTrue, Err, IsErrOf, option_map};
ghost use Rattle.cluster_tree.specs.PathValue.{PathValue};
ghost use Rattle.cluster_tree.specs.Contents.{entry_at};
ghost use Rattle.cluster_tree.specs.Tree.{file_of};
ghost use Rattle.cluster_tree.specs.Causes.{IsAmong, Rose};
ghost use Rattle.cluster_tree.specs.Frame.{Reads};
ghost use Rattle.clusters.specs.WholeFile.{all_of};

use crate::ClusterFault;
use cluster_tree::{Path, Tree, TreeFault};
use std::alloc::Global;

/// The bytes of the file at a path, or `None` where there is no file: nothing stands there, or a
/// folder or a link does.
///
/// Answers `ReadFault` where the device failed, `Changed` with the path where the file had a size and
/// then could not be read, and `OutOfMemory`.
pub fn read_all<F: Tree>(
    alloc: Global,
    tree: &mut F,
    path: Path,
) -> Result<Option<Vec<u8>>, ClusterFault>
    ensures found { IsTrue F.tells → IfOk result (λ found. option_map (λ bytes. bytes.items) found
        ≡ all_of (file_of (entry_at (F.contents tree.old) path))) }
    ensures reads { Reads F.Tree tree.old tree.new }
    ensures read_fault { IsErrOf result ClusterFault.ReadFault →
        Rose (F.failed_reads tree.old) (F.failed_reads tree.new) }
    ensures changed { IsTrue F.tells → (p : PathValue) → result ≢ Err (ClusterFault.Changed p) }
    ensures row { IfErr result (IsAmong
        (ClusterFault.ReadFault ∷ ClusterFault.OutOfMemory ∷ ClusterFault.Changed path ∷ [])) }
{
    let size = match tree.size(&path) {
        Ok(size) => size,
        Err(TreeFault::Failed) => return Err(ClusterFault::ReadFault),
        Err(_) => return Ok(None),
    };
    let mut bytes = vec![in alloc; 0; size as usize]?;
    match tree.read_at(&path, 0, &mut bytes) {
        Ok(()) => Ok(Some(bytes)),
        Err(TreeFault::Failed) => Err(ClusterFault::ReadFault),
        Err(_) => Err(ClusterFault::Changed(path)),
    }
}
