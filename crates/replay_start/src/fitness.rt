// What a control file must meet for a replay.
ghost use Rattle.std.specs.Prelude.{◌≡◌, ◌≢◌, [], ◌∷◌, Err};
ghost use Rattle.cluster_tree.specs.PathValue.{PathValue};
ghost use Rattle.cluster_tree.specs.Causes.{Passes, first_of};
ghost use Rattle.replay_start.specs.Faults.{IsFree};
ghost use Rattle.replay_start.specs.Checked.{checksums_on, no_hints};
ghost use Rattle.clusters.specs.declared.fault.ClusterFault.TheVariants as cluster;

use crate::ReplayFault;
use cluster_tree::Path;
use control_file::Control;
use std::alloc::Global;

/// Refuses a cluster whose pages have checksums, and then one that doesn't log hints.
#[tactic(auto, using(cluster_tree::proofs::PointLemmas::points))]
pub(crate) fn check_control(
    alloc: Global,
    root: &Path,
    control: &Control,
) -> Result<(), ReplayFault>
    ensures answer { Passes IsFree (first_of
        (checksums_on root.now control.now ∷ no_hints root.now control.now ∷ [])) result }
    ensures read_fault { result ≢ Err (ReplayFault.Cluster cluster.ReadFault) }
    ensures changed { (p : PathValue) → result ≢ Err (ReplayFault.Cluster (cluster.Changed p)) }
    ensures never_writes { result ≢ Err ReplayFault.WriteFault }
{
    check_checksums(alloc, root, control)?;
    check_hints(alloc, root, control)
}

// Refuses pages with checksums.
#[tactic(auto, unfolding(crate::specs::Checked::checksums_on))]
fn check_checksums(alloc: Global, root: &Path, control: &Control) -> Result<(), ReplayFault>
    ensures answer { Passes IsFree (checksums_on root.now control.now) result }
    ensures read_fault { result ≢ Err (ReplayFault.Cluster cluster.ReadFault) }
    ensures changed { (p : PathValue) → result ≢ Err (ReplayFault.Cluster (cluster.Changed p)) }
    ensures never_writes { result ≢ Err ReplayFault.WriteFault }
{
    if control.checksumVersion != 0 {
        return Err(ReplayFault::ChecksumsOn(root.copy(alloc)?));
    }
    Ok(())
}

// Refuses a cluster whose hints were not logged.
#[tactic(auto, unfolding(crate::specs::Checked::no_hints))]
fn check_hints(alloc: Global, root: &Path, control: &Control) -> Result<(), ReplayFault>
    ensures answer { Passes IsFree (no_hints root.now control.now) result }
    ensures read_fault { result ≢ Err (ReplayFault.Cluster cluster.ReadFault) }
    ensures changed { (p : PathValue) → result ≢ Err (ReplayFault.Cluster (cluster.Changed p)) }
    ensures never_writes { result ≢ Err ReplayFault.WriteFault }
{
    if control.walLogHints == 0 {
        return Err(ReplayFault::NoHints(root.copy(alloc)?));
    }
    Ok(())
}
