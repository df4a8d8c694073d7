// The plan of the paths of two clusters, side by side.
ghost use Rattle.std.specs.Prelude.{◌≡◌, ◌≢◌, IfOk, Err};
ghost use Rattle.cluster_tree.specs.Causes.{Passes};
ghost use Rattle.cluster_tree.specs.PathValue.{PathValue};
ghost use Rattle.control_file.specs.Admission.{IsControl};
ghost use Rattle.rewound_tree.specs.RewoundControl.{consistent_at, consistent_on, rewound_control};
ghost use Rattle.rewind_plan.specs.Between.{between};
ghost use Rattle.rewind_plan.specs.Room.{AllHaveRoom};
ghost use Rattle.rewind_survey.specs.Faults.{IsFree};
ghost use Rattle.rewind_core.specs.Planned.{pairs_refusal};
ghost use Rattle.clusters.specs.declared.fault.ClusterFault.TheVariants as cluster;

use control_file::Control;
use file_walk::Pair;
use rewind_plan::{Clusters, first_difference, first_lacking};
use rewind_survey::RewindFault;
use std::alloc::Global;

/// The position from which on a cluster that was shut down is consistent, and that position's timeline.
fn consistent_from(source: &Control) -> (u64, u32)
    ensures at { result.0 ≡ consistent_at source.now }
    ensures timeline { result.1 ≡ consistent_on source.now }
{
    if source.state == 2 {
        let at = source.checkPoint.max(source.minRecoveryPoint);
        (at, source.timeline())
    } else {
        (source.checkPoint, source.cp.tli)
    }
}

/// The control file that a rewind leaves.
#[tactic(auto, using(crate::proofs::ControlLemmas::control_steps))]
pub(crate) fn rewound_control(source: &Control, now: i64) -> Control
    requires { IsControl source.now }
    ensures value { result ≡ rewound_control source.now now }
    ensures control { IsControl result }
{
    let (at, tli) = consistent_from(source);
    Control {
        state: 5,
        time: now,
        minRecoveryPoint: at,
        minRecoveryPointTli: tli,
        ..*source
    }
}

/// Refuses the least path that has no room where it is made, and then the least whose kinds differ.
#[tactic(auto, using(crate::proofs::CheckLemmas::check_steps))]
pub(crate) fn check_pairs(
    alloc: Global,
    clusters: &Clusters<'_>,
    pairs: &[Pair],
) -> Result<(), RewindFault>
    ensures answer { Passes IsFree (pairs_refusal (between clusters.now) pairs.now) result }
    ensures room { IfOk result (λ _. AllHaveRoom (between clusters.now) pairs.now) }
    ensures read { result ≢ Err (RewindFault.Cluster cluster.ReadFault) }
    ensures changed { (p : PathValue) → result ≢ Err (RewindFault.Cluster (cluster.Changed p)) }
    ensures never_writes { result ≢ Err RewindFault.WriteFault }
{
    if let Some(path) = first_lacking(clusters, pairs) {
        return Err(RewindFault::TooDeep(path.copy(alloc)?));
    }
    if let Some(path) = first_difference(pairs) {
        return Err(RewindFault::KindsDiffer(path.copy(alloc)?));
    }
    Ok(())
}
