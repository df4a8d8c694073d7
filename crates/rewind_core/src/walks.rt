// What lies below a root, or why a rewind is refused for it.
ghost use Rattle.std.specs.Prelude.{◌≢◌, ◌≤◌, length, IfOk, IsTrue, Ok, Err, IsErrOf};
ghost use Rattle.cluster_tree.specs.Causes.{Meets, Rose};
ghost use Rattle.cluster_tree.specs.Frame.{Reads};
ghost use Rattle.cluster_tree.specs.PathValue.{PathValue};
ghost use Rattle.file_walk.specs.Listed.{AreInOrder};
ghost use Rattle.file_walk.specs.Walk.{walk_of};
ghost use Rattle.file_walk.specs.Walk.{HasParts};
ghost use Rattle.rewind_survey.specs.Faults.{IsFree};
ghost use Rattle.rewind_core.specs.Faults.{seen};
ghost use Rattle.clusters.specs.declared.fault.ClusterFault.TheVariants as cluster;

use crate::faults::of_walk;
use cluster_tree::{Path, Tree};
use file_walk::{Entries, walk};
use rewind_survey::RewindFault;
use std::alloc::Global;

/// The entries below a root, in order.
#[tactic(auto, using(crate::proofs::FaultLemmas::fault_steps))]
pub(crate) fn walk_below<F: Tree>(
    alloc: Global,
    tree: &mut F,
    root: &Path,
) -> Result<Entries, RewindFault>
    requires { length root.now.parts ≤ 61 }
    ensures exact { IsTrue F.tells →
        Meets IsFree (seen (walk_of (F.contents tree.old) root.now)) result }
    ensures order { IsTrue F.tells → IfOk result AreInOrder }
    ensures parts { IsTrue F.tells → IfOk result (λ _. HasParts (F.contents tree.old) root.now) }
    ensures reads { Reads F.Tree tree.old tree.new }
    ensures read_fault { IsErrOf result (RewindFault.Cluster cluster.ReadFault) →
        Rose (F.failed_reads tree.old) (F.failed_reads tree.new) }
    ensures changed { IsTrue F.tells → (p : PathValue) →
        result ≢ Err (RewindFault.Cluster (cluster.Changed p)) }
    ensures never_writes { result ≢ Err RewindFault.WriteFault }
{
    match walk(alloc, tree, root) {
        Ok(entries) => Ok(entries),
        Err(fault) => Err(of_walk(fault)),
    }
}
