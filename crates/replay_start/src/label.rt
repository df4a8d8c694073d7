// The label of a cluster.
ghost use Rattle.std.specs.Prelude.{◌≡◌, ◌≢◌, ◌≤◌, [], ◌∷◌, IfErr, IfOk, IsTrue, codes, length, Err, IsErrOf};
ghost use Rattle.cluster_tree.specs.Contents.{entry_at};
ghost use Rattle.cluster_tree.specs.PathValue.{PathValue, below};
ghost use Rattle.cluster_tree.specs.Causes.{Meets, Rose};
ghost use Rattle.cluster_tree.specs.Frame.{Reads};
ghost use Rattle.cluster_tree.specs.Tree.{file_of};
ghost use Rattle.replay_start.specs.Faults.{IsFree};
ghost use Rattle.replay_start.specs.Checked.{label_at, label_in, with_label};
ghost use Rattle.clusters.specs.declared.fault.ClusterFault.TheVariants as cluster;

use crate::ReplayFault;
use backup_label::{LabelFault, LabelPlaces, read_label};
use cluster_tree::{Path, Tree};
use clusters::read_all;
use std::alloc::Global;

// The refusals of a label, with its root.
fn with_label(
    alloc: Global,
    root: &Path,
    read: Result<LabelPlaces, LabelFault>,
) -> Result<LabelPlaces, ReplayFault>
    ensures exact { Meets IsFree (with_label root.now read) result }
    ensures read_fault { result ≢ Err (ReplayFault.Cluster cluster.ReadFault) }
    ensures changed { (p : PathValue) → result ≢ Err (ReplayFault.Cluster (cluster.Changed p)) }
    ensures never_writes { result ≢ Err ReplayFault.WriteFault }
{
    match read {
        Ok(places) => Ok(places),
        Err(LabelFault::Start) => Err(ReplayFault::BadLabel(root.copy(alloc)?, 1)),
        Err(LabelFault::Checkpoint) => Err(ReplayFault::BadLabel(root.copy(alloc)?, 2)),
    }
}

// What the label at this path says.
#[tactic(auto, using(crate::proofs::FaultLemmas::fault_steps, crate::proofs::LabelLemmas::label_steps))]
fn label_in<F: Tree>(
    alloc: Global,
    tree: &mut F,
    root: &Path,
    path: Path,
) -> Result<LabelPlaces, ReplayFault>
    ensures exact { IsTrue F.tells → Meets IsFree
        (label_in root.now (file_of (entry_at (F.contents tree.old) path))) result }
    ensures reads { Reads F.Tree tree.old tree.new }
    ensures read_fault { IsErrOf result (ReplayFault.Cluster cluster.ReadFault) →
        Rose (F.failed_reads tree.old) (F.failed_reads tree.new) }
    ensures changed { IsTrue F.tells → (p : PathValue) →
        result ≢ Err (ReplayFault.Cluster (cluster.Changed p)) }
    ensures never_writes { result ≢ Err ReplayFault.WriteFault }
{
    match read_all(alloc, tree, path) {
        Ok(None) => Err(ReplayFault::NoLabel(root.copy(alloc)?)),
        Ok(Some(bytes)) => with_label(alloc, root, read_label(&bytes)),
        Err(fault) => Err(ReplayFault::Cluster(fault)),
    }
}

/// What the label of a root says.
#[tactic(auto, unfolding(crate::specs::Checked::label_at))]
pub(crate) fn label_at<F: Tree>(
    alloc: Global,
    tree: &mut F,
    root: &Path,
) -> Result<LabelPlaces, ReplayFault>
    requires { length root.now.parts ≤ 61 }
    ensures exact { IsTrue F.tells →
        Meets IsFree (label_at (F.contents tree.old) root.now) result }
    ensures reads { Reads F.Tree tree.old tree.new }
    ensures read_fault { IsErrOf result (ReplayFault.Cluster cluster.ReadFault) →
        Rose (F.failed_reads tree.old) (F.failed_reads tree.new) }
    ensures changed { IsTrue F.tells → (p : PathValue) →
        result ≢ Err (ReplayFault.Cluster (cluster.Changed p)) }
    ensures never_writes { result ≢ Err ReplayFault.WriteFault }
{
    let path = root.below(alloc, "backup_label")?;
    label_in(alloc, tree, root, path)
}
