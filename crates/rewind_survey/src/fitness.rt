// What two control files must meet for a rewind.
ghost use Rattle.std.specs.Prelude.{◌≡◌, ◌≢◌, Err};
ghost use Rattle.cluster_tree.specs.PathValue.{PathValue};
ghost use Rattle.cluster_tree.specs.Causes.{Passes, first_of};
ghost use Rattle.rewind_survey.specs.Faults.{IsFree};
ghost use Rattle.rewind_survey.specs.Fitness.{pair_points, other_sizes, systems_differ, no_hints, not_clean};
ghost use Rattle.clusters.specs.declared.fault.ClusterFault.TheVariants as cluster;

use crate::RewindFault;
use cluster_tree::Path;
use clusters::ClusterFault;
use control_file::{Control, Field};
use std::alloc::Global;

/// Refuses two control files that are unfit for a rewind, by the first point that they miss.
#[tactic(auto, using(cluster_tree::proofs::PointLemmas::points))]
pub(crate) fn check_pair(
    alloc: Global,
    target: &Path,
    source: &Path,
    t: &Control,
    s: &Control,
) -> Result<(), RewindFault>
    ensures answer { Passes IsFree (first_of (pair_points target.now source.now t.now s.now))
        result }
    ensures read_fault { result ≢ Err (RewindFault.Cluster cluster.ReadFault) }
    ensures changed { (p : PathValue) → result ≢ Err (RewindFault.Cluster (cluster.Changed p)) }
    ensures never_writes { result ≢ Err RewindFault.WriteFault }
{
    check_sizes(alloc, source, t, s)?;
    check_systems(t, s)?;
    check_hints(alloc, target, t)?;
    check_clean(alloc, target, t)?;
    check_clean(alloc, source, s)
}

// Refuses a source whose files are cut at another size than the target's.
#[tactic(auto, unfolding(crate::specs::Fitness::other_sizes))]
fn check_sizes(alloc: Global, source: &Path, t: &Control, s: &Control) -> Result<(), RewindFault>
    ensures answer { Passes IsFree (other_sizes source.now t.now s.now) result }
    ensures read_fault { result ≢ Err (RewindFault.Cluster cluster.ReadFault) }
    ensures changed { (p : PathValue) → result ≢ Err (RewindFault.Cluster (cluster.Changed p)) }
    ensures never_writes { result ≢ Err RewindFault.WriteFault }
{
    if s.relseg != t.relseg {
        let (root, value) = (source.copy(alloc)?, s.relseg as u64);
        return Err(RewindFault::Cluster(ClusterFault::Shape(root, Field::Relseg, value)));
    }
    if s.walSegSize != t.walSegSize {
        let (root, value) = (source.copy(alloc)?, s.walSegSize as u64);
        return Err(RewindFault::Cluster(ClusterFault::Shape(root, Field::WalSegSize, value)));
    }
    Ok(())
}

// Refuses clusters of two systems.
#[tactic(auto, unfolding(crate::specs::Fitness::systems_differ))]
fn check_systems(t: &Control, s: &Control) -> Result<(), RewindFault>
    ensures answer { Passes IsFree (systems_differ t.now s.now) result }
    ensures read_fault { result ≢ Err (RewindFault.Cluster cluster.ReadFault) }
    ensures changed { (p : PathValue) → result ≢ Err (RewindFault.Cluster (cluster.Changed p)) }
    ensures never_writes { result ≢ Err RewindFault.WriteFault }
{
    if t.sysid != s.sysid {
        return Err(RewindFault::SystemsDiffer(t.sysid, s.sysid));
    }
    Ok(())
}

// Refuses a target whose hints were not logged.
#[tactic(auto, unfolding(crate::specs::Fitness::no_hints))]
fn check_hints(alloc: Global, root: &Path, t: &Control) -> Result<(), RewindFault>
    ensures answer { Passes IsFree (no_hints root.now t.now) result }
    ensures read_fault { result ≢ Err (RewindFault.Cluster cluster.ReadFault) }
    ensures changed { (p : PathValue) → result ≢ Err (RewindFault.Cluster (cluster.Changed p)) }
    ensures never_writes { result ≢ Err RewindFault.WriteFault }
{
    if t.walLogHints == 0 && t.checksumVersion != 1 {
        return Err(RewindFault::NoHints(root.copy(alloc)?));
    }
    Ok(())
}

// Refuses a cluster that was not shut down.
#[tactic(auto, unfolding(crate::specs::Fitness::not_clean))]
fn check_clean(alloc: Global, root: &Path, c: &Control) -> Result<(), RewindFault>
    ensures answer { Passes IsFree (not_clean root.now c.now) result }
    ensures read_fault { result ≢ Err (RewindFault.Cluster cluster.ReadFault) }
    ensures changed { (p : PathValue) → result ≢ Err (RewindFault.Cluster (cluster.Changed p)) }
    ensures never_writes { result ≢ Err RewindFault.WriteFault }
{
    if c.state != 1 && c.state != 2 {
        return Err(RewindFault::NotClean(root.copy(alloc)?, c.state));
    }
    Ok(())
}
