// The faults of a replay that can be started again as causes.
ghost use Rattle.std.specs.Prelude.{◌≡◌, ◌≢◌, ◌⊎◌, IsTrue};
ghost use Rattle.cluster_tree.specs.PathValue.{PathValue};
ghost use Rattle.cluster_tree.specs.declared.file_fault.FileFault.TheVariants as file;
ghost use Rattle.clusters.specs.declared.fault.ClusterFault.TheVariants as cluster;
ghost use Rattle.file_walk.specs.declared.fault.WalkFault.TheVariants as walk;
ghost use Rattle.replay_start.specs.declared.fault.ReplayFault.TheVariants as replay;
ghost use Rattle.run_acts.specs.Causes.{IsOfLook, is_deep, is_of_files};
ghost use Rattle.cmd_restart.specs.Restart.{restart_cause};

use cluster_causes::walk_cause;
use cmd_walreplay::replay_cause;
use replay_restart::RestartFault as Fault;
use run_acts::{Cause, ReplayCause, RewindCause};

/// The cause that a fault has of a replay that can be started again.
pub(crate) fn restart_cause(fault: Fault) -> Cause
    ensures value { result ≡ restart_cause fault }
    ensures look { IsOfLook result ⊎ (fault ≡ Fault.Replay replay.WriteFault) ⊎
        (fault ≡ Fault.Walk (walk.File file.WriteFault)) }
    ensures files { IsTrue (is_of_files result) ⊎ IsTrue (is_deep result) ⊎
        (fault ≡ Fault.Replay replay.WriteFault) ⊎
        (fault ≡ Fault.Walk (walk.File file.WriteFault)) }
    ensures read { result ≡ Cause.ReadFault →
        (fault ≡ Fault.Replay (replay.Cluster cluster.ReadFault)) ⊎
        (fault ≡ Fault.Walk (walk.File file.ReadFault)) }
    ensures write { result ≡ Cause.WriteFault → (fault ≡ Fault.Replay replay.WriteFault) ⊎
        (fault ≡ Fault.Walk (walk.File file.WriteFault)) }
    ensures sink { result ≢ Cause.SinkFault }
    ensures changed { (p : PathValue) → result ≡ Cause.Changed p →
        (fault ≡ Fault.Replay (replay.Cluster (cluster.Changed p))) ⊎
        (fault ≡ Fault.Walk (walk.File (file.Changed p))) }
{
    match fault {
        Fault::Replay(fault) => replay_cause(fault),
        Fault::Walk(fault) => walk_cause(fault),
        Fault::BadPlan(root, number) => Cause::Rewind(RewindCause::BadPlan(root, number)),
        Fault::ShadowDiffers(path) => Cause::Replay(ReplayCause::ShadowDiffers(path)),
        Fault::NotRestartable(name) => Cause::Replay(ReplayCause::NotRestartable(name)),
    }
}
