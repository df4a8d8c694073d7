// The CRC of a control file, as its file has it.
ghost use Rattle.std.specs.Prelude.{◌≡◌, ◌≢◌, ◌≤◌, ℕ, List, length, IfErr, IfOk, IsTrue, Ok, Err, IsErrOf};
ghost use Rattle.cluster_tree.specs.Causes.{Rose};
ghost use Rattle.cluster_tree.specs.Contents.{entry_at};
ghost use Rattle.cluster_tree.specs.Frame.{Reads};
ghost use Rattle.cluster_tree.specs.PathValue.{PathValue};
ghost use Rattle.cluster_tree.specs.Tree.{file_of};
ghost use Rattle.clusters.specs.WholeFile.{found_of};
ghost use Rattle.layout.specs.Readers.{u32_at};
ghost use Rattle.rewind_survey.specs.Faults.{IsFree};
ghost use Rattle.rewind_core.specs.Rooted.{IsRooted};
ghost use Rattle.rewind_core.specs.Text.{sum_at};
ghost use Rattle.clusters.specs.declared.fault.ClusterFault.TheVariants as cluster;

use cluster_tree::{Path, Tree};
use clusters::{ClusterFault, Found, path_in, read_whole};
use layout::u32_at;
use rewind_survey::RewindFault;
use std::alloc::Global;

// A root whose files were changed meanwhile.
fn changed_at(alloc: Global, root: &Path) -> RewindFault
    ensures read { result ≢ RewindFault.Cluster cluster.ReadFault }
    ensures never_writes { result ≢ RewindFault.WriteFault }
{
    match root.copy(alloc) {
        Ok(root) => RewindFault::Cluster(ClusterFault::Changed(root)),
        Err(_) => RewindFault::Cluster(ClusterFault::OutOfMemory),
    }
}

// The CRC in the control file at this path.
fn sum_in<F: Tree>(alloc: Global, tree: &mut F, root: &Path, path: Path) -> Result<u32, RewindFault>
    requires whole { IsTrue F.tells →
        found_of 8192 (file_of (entry_at (F.contents tree.old) path)) ≡ Found.Filled }
    ensures value { IsTrue F.tells → (bytes : List ℕ) →
        file_of (entry_at (F.contents tree.old) path) ≡ Ok bytes →
        IfOk result (λ sum. sum ≡ u32_at 288 bytes) }
    ensures free { IsTrue F.tells → IfErr result IsFree }
    ensures reads { Reads F.Tree tree.old tree.new }
    ensures read_fault { IsErrOf result (RewindFault.Cluster cluster.ReadFault) →
        Rose (F.failed_reads tree.old) (F.failed_reads tree.new) }
    ensures changed { IsTrue F.tells → (p : PathValue) →
        result ≢ Err (RewindFault.Cluster (cluster.Changed p)) }
    ensures never_writes { result ≢ Err RewindFault.WriteFault }
{
    let mut bytes = [0; 8192];
    match read_whole(tree, path, &mut bytes) {
        Ok(Found::Filled) => Ok(u32_at(&bytes, 288)),
        Ok(_) => Err(changed_at(alloc, root)),
        Err(fault) => Err(RewindFault::Cluster(fault)),
    }
}

/// The CRC in the control file of a root that was found there before. Answers `Changed` where the file
/// isn't there any more, which it never is where the tree tells.
pub fn sum_at<F: Tree>(alloc: Global, tree: &mut F, root: &Path) -> Result<u32, RewindFault>
    requires depth { length root.now.parts ≤ 61 }
    requires rooted { IsTrue F.tells → IsRooted (F.contents tree.old) root.now }
    ensures value { IsTrue F.tells →
        IfOk result (λ sum. sum ≡ sum_at (F.contents tree.old) root.now) }
    ensures free { IsTrue F.tells → IfErr result IsFree }
    ensures reads { Reads F.Tree tree.old tree.new }
    ensures read_fault { IsErrOf result (RewindFault.Cluster cluster.ReadFault) →
        Rose (F.failed_reads tree.old) (F.failed_reads tree.new) }
    ensures changed { IsTrue F.tells → (p : PathValue) →
        result ≢ Err (RewindFault.Cluster (cluster.Changed p)) }
    ensures never_writes { result ≢ Err RewindFault.WriteFault }
{
    match path_in(alloc, root, "global/pg_control") {
        Ok(path) => sum_in(alloc, tree, root, path),
        Err(fault) => Err(RewindFault::Cluster(fault)),
    }
}
