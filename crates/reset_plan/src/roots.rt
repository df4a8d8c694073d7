// What stands at a root, or why a reset is refused for it.
ghost use Rattle.std.specs.Prelude.{◌≡◌, ◌≢◌, ◌⊎◌, ◌≤◌, length, IfOk, IsTrue, Err, IsErrOf, option_map};
ghost use Rattle.cluster_tree.specs.PathValue.{PathValue};
ghost use Rattle.cluster_tree.specs.Causes.{Meets, Passes, Rose};
ghost use Rattle.cluster_tree.specs.Frame.{Reads};
ghost use Rattle.cluster_tree.specs.declared.tree.TreeFault.{TreeFault};
ghost use Rattle.control_file.specs.Admission.{IsControl};
ghost use Rattle.clusters.specs.Marks.{unfinished};
ghost use Rattle.clusters.specs.RootControl.{control_at};
ghost use Rattle.reset_plan.specs.ResetFaults.{IsFree, changed_at, folder_fault, no_memory, read_failed, told_by};

use crate::ResetFault;
use cluster_tree::{Path, Tree, TreeFault};
use clusters::ClusterFault;
use control_file::Control;
use std::alloc::Global;

/// Refuses a root at which a mark stands, with the first of them.
#[tactic(auto, using(crate::proofs::FaultLemmas::fault_steps))]
pub(crate) fn check_marks<F: Tree>(
    alloc: Global,
    tree: &mut F,
    root: &Path,
) -> Result<(), ResetFault>
    requires { length root.now.parts ≤ 61 }
    ensures answer { IsTrue F.tells → Passes IsFree
        (option_map ResetFault.Cluster (unfinished (F.contents tree.old) root.now)) result }
    ensures reads { Reads F.Tree tree.old tree.new }
    ensures read_fault { IsErrOf result read_failed →
        Rose (F.failed_reads tree.old) (F.failed_reads tree.new) }
    ensures write_fault { result ≢ Err ResetFault.WriteFault }
    ensures changed { IsTrue F.tells → (p : PathValue) → result ≢ Err (changed_at p) }
{
    match clusters::check_marks(alloc, tree, root) {
        Ok(()) => Ok(()),
        Err(fault) => Err(ResetFault::Cluster(fault)),
    }
}

/// What the control file of a root says.
#[tactic(auto, using(crate::proofs::FaultLemmas::fault_steps))]
pub(crate) fn control_at<F: Tree>(
    alloc: Global,
    tree: &mut F,
    root: &Path,
) -> Result<Control, ResetFault>
    requires { length root.now.parts ≤ 61 }
    ensures exact { IsTrue F.tells →
        Meets IsFree (told_by (control_at (F.contents tree.old) root.now)) result }
    ensures control { IfOk result IsControl }
    ensures reads { Reads F.Tree tree.old tree.new }
    ensures read_fault { IsErrOf result read_failed →
        Rose (F.failed_reads tree.old) (F.failed_reads tree.new) }
    ensures write_fault { result ≢ Err ResetFault.WriteFault }
    ensures changed { IsTrue F.tells → (p : PathValue) → result ≢ Err (changed_at p) }
{
    match clusters::control_at(alloc, tree, root) {
        Ok(control) => Ok(control),
        Err(fault) => Err(ResetFault::Cluster(fault)),
    }
}

// Why the names of a folder aren't known.
fn folder_fault(folder: Path, fault: TreeFault) -> ResetFault
    ensures { result ≡ folder_fault folder fault }
{
    match fault {
        TreeFault::Failed => ResetFault::Cluster(ClusterFault::ReadFault),
        TreeFault::OutOfMemory => ResetFault::Cluster(ClusterFault::OutOfMemory),
        TreeFault::Link => ResetFault::Link(folder),
        TreeFault::NameNotText => ResetFault::NameNotText(folder),
        _ => ResetFault::NotFolder(folder),
    }
}

/// Why the names of a folder aren't known, or want of memory for its path.
pub(crate) fn listing_fault(alloc: Global, folder: &Path, fault: TreeFault) -> ResetFault
    ensures value { (result ≡ folder_fault folder.now fault) ⊎ (result ≡ no_memory) }
    ensures read { result ≡ read_failed → fault ≡ TreeFault.Failed }
    ensures write_fault { result ≢ ResetFault.WriteFault }
    ensures changed { (p : PathValue) → result ≢ changed_at p }
{
    match folder.copy(alloc) {
        Ok(path) => folder_fault(path, fault),
        Err(_) => ResetFault::Cluster(ClusterFault::OutOfMemory),
    }
}
