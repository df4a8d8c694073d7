// The public call that replays so that a stop at any write can be followed by the same call.
ghost use Rattle.std.specs.Prelude.{◌≡◌, ◌≢◌, ◌≤◌, ◌⊎◌, length, Err, IfErr, IfOk, IsErrOf, IsTrue, OnOk};
ghost use Rattle.cluster_tree.specs.Causes.{Rose};
ghost use Rattle.cluster_tree.specs.Frame.{Came, moment_of, state_of};
ghost use Rattle.cluster_tree.specs.PathValue.{PathValue};
ghost use Rattle.cluster_tree.specs.Stops.{LeavesOnly};
ghost use Rattle.cluster_tree.specs.declared.file_fault.FileFault.TheVariants as file;
ghost use Rattle.clusters.specs.declared.fault.ClusterFault.TheVariants as cluster;
ghost use Rattle.file_walk.specs.declared.fault.WalkFault.TheVariants as walk;
ghost use Rattle.marked_runs.specs.Moments.{StandsSynced};
ghost use Rattle.replay_core.specs.Stops.{IsDurable};
ghost use Rattle.replay_core.specs.Within.{LogStays, StaysWithin};
ghost use Rattle.replay_start.specs.declared.fault.ReplayFault.TheVariants as replay;
ghost use Rattle.replay_restart.specs.Faults.{IsFree};
ghost use Rattle.replay_restart.specs.Left.{IsLeftByRestart, LeavesMark, Restarts};
ghost use Rattle.replay_restart.specs.Meant.{IsLeftBy, WhyEnded, WhyFirst};
ghost use Rattle.replay_restart.specs.Stopped.{IsStopped};
ghost use Rattle.rmgr_hooks.specs.Custom.{handed_in};

use crate::again::replay_again;
use crate::anew::replay_anew;
use crate::ended::end_again;
use crate::fault::RestartFault;
use crate::outcome::Restarted;
use crate::taken::taken;
use cluster_tree::{Path, Tree};
use rmgr_hooks::Manager;
use std::alloc::Global;
use stored_replay::StoredReplay;

// Does what the mark asks for.
fn carry_out<F: Tree, M: Manager>(
    alloc: Global,
    tree: &mut F,
    root: &Path,
    custom: Option<&M>,
) -> Result<Restarted, RestartFault>
    requires room { length root.now.parts ≤ 61 }
    ensures restarts { IsTrue F.tells → Restarts (handed_in M.Manager custom.entry) root.now
        (moment_of F.Tree tree.old) (moment_of F.Tree tree.new) result }
    ensures first { IsTrue F.tells → (e : RestartFault) →
        WhyFirst (handed_in M.Manager custom.entry) (F.contents tree.old) root.now e →
        (moment_of F.Tree tree.new ≡ moment_of F.Tree tree.old)
        × (result ≢ Err (RestartFault.Replay replay.WriteFault)) }
    ensures frame { Came F.Tree tree.old tree.new }
    ensures read_fault { IsErrOf result (RestartFault.Replay (replay.Cluster cluster.ReadFault)) →
        Rose (F.failed_reads tree.old) (F.failed_reads tree.new) }
    ensures walk_fault { IsErrOf result (RestartFault.Walk (walk.File file.ReadFault)) →
        Rose (F.failed_reads tree.old) (F.failed_reads tree.new) }
    // a walk only reads
    ensures walk_reads { result ≢ Err (RestartFault.Walk (walk.File file.WriteFault)) }
    ensures write_fault { IsErrOf result (RestartFault.Replay replay.WriteFault) →
        Rose (F.failed_changes tree.old) (F.failed_changes tree.new) }
    ensures changed { IsTrue F.tells → (p : PathValue) →
        (result ≢ Err (RestartFault.Replay (replay.Cluster (cluster.Changed p))))
        × (result ≢ Err (RestartFault.Walk (walk.File (file.Changed p)))) }
{
    match taken(alloc, tree, root)? {
        StoredReplay::NotBegun => replay_anew(alloc, tree, root, custom),
        StoredReplay::Begun(listed) => replay_again(alloc, tree, root, &listed, custom),
        StoredReplay::HadEnded => end_again(alloc, tree, root),
    }
}

/// Replays a cluster's log into its files, from its label's start to the log's end, so that a stop at any
/// moment can be followed by the same call. Before its first other change the mark
/// `pg_walreplay.unfinished` lists what stands at or below the folders that replay changes, with copies
/// of all files that are no main forks' in `pg_walreplay.shadow`; both are removed behind its last. Where such a
/// mark stands, what it lists is brought back first, and where the replay had ended, only mark and
/// copies are removed. Where a manager of an extension is handed in, the records that it knows are replayed by it.
///
/// Answers, in this order: `Unfinished` for another mark than its own; `BadPlan` for the first line of its mark
/// that isn't of its form, and where the replay hadn't ended `ShadowDiffers` for the first copy that isn't there
/// and `BadPlan` for the first line whose path lies in no folder that is listed before it; where no
/// replay was begun, what `check` of `replay_start` refuses, then what is wrong with the least path at or below
/// those folders (`Walk`), and then the least block that the log changes first (`NotRestartable`). Up to there
/// nothing is changed. Behind it: what can't be removed at the folder of copies; what is in the way of what is
/// brought back, and, of that, what would have refused before; and what breaks a replay off. Then the
/// mark stands. `ReadFault`, `WriteFault` and `OutOfMemory` may come at any point, and `Changed` never where the
/// tree tells.
pub fn restart<F: Tree, M: Manager>(
    alloc: Global,
    tree: &mut F,
    root: &Path,
    custom: Option<&M>,
) -> Result<Restarted, RestartFault>
    requires room { length root.now.parts ≤ 61 }
    // what is left is what is meant, and so is what is told of it
    ensures done { IsTrue F.tells → IfOk result (IsLeftBy (handed_in M.Manager custom.entry)
        (F.contents tree.old) root.now (F.contents tree.new)) }
    // or the answer is that of the first point that refuses
    ensures refused { IsTrue F.tells → IfErr result (λ e. IsFree e ⊎ WhyEnded
        (handed_in M.Manager custom.entry) (F.contents tree.old) root.now e) }
    // nothing is changed before every check has passed, and the mark stands where it is refused behind that
    ensures checked { IsTrue F.tells → (e : RestartFault) →
        WhyFirst (handed_in M.Manager custom.entry) (F.contents tree.old) root.now e →
        moment_of F.Tree tree.new ≡ moment_of F.Tree tree.old }
    ensures unwritten { IsTrue F.tells → (e : RestartFault) →
        WhyFirst (handed_in M.Manager custom.entry) (F.contents tree.old) root.now e →
        result ≢ Err (RestartFault.Replay replay.WriteFault) }
    ensures stands { IsTrue F.tells → IfErr result (LeavesMark (handed_in M.Manager custom.entry)
        root.now (F.contents tree.old) (F.contents tree.new)) }
    // a stop at any moment leaves the cluster untouched, marked, or as it is meant to be left; once the
    // replay is done, it leaves what stands
    ensures stops { IsTrue F.tells → LeavesOnly (IsLeftByRestart
        (handed_in M.Manager custom.entry) root.now (moment_of F.Tree tree.old))
        (F.stops tree.old) (F.stops tree.new) }
    // and where what stands is synced at the start, it leaves what the same call goes on from: the mark
    // with its copies, and each block that no record touches
    ensures left { IsTrue F.tells →
        StandsSynced (F.contents tree.old) (moment_of F.Tree tree.old) → LeavesOnly
        (IsStopped (handed_in M.Manager custom.entry) root.now (F.contents tree.old))
        (F.stops tree.old) (F.stops tree.new) }
    ensures synced { IsTrue F.tells → OnOk result (IsDurable (moment_of F.Tree tree.new)) }
    // what is below the root alone is changed, and the log is not
    ensures within { IsTrue F.tells → StaysWithin root.now (state_of F.Tree tree.old)
        (state_of F.Tree tree.new) }
    ensures log { IsTrue F.tells → LogStays root.now (F.contents tree.old) (F.contents tree.new) }
    ensures frame { Came F.Tree tree.old tree.new }
    ensures read_fault { IsErrOf result (RestartFault.Replay (replay.Cluster cluster.ReadFault)) →
        Rose (F.failed_reads tree.old) (F.failed_reads tree.new) }
    ensures walk_fault { IsErrOf result (RestartFault.Walk (walk.File file.ReadFault)) →
        Rose (F.failed_reads tree.old) (F.failed_reads tree.new) }
    // a walk only reads
    ensures walk_reads { result ≢ Err (RestartFault.Walk (walk.File file.WriteFault)) }
    ensures write_fault { IsErrOf result (RestartFault.Replay replay.WriteFault) →
        Rose (F.failed_changes tree.old) (F.failed_changes tree.new) }
    ensures changed { IsTrue F.tells → (p : PathValue) →
        (result ≢ Err (RestartFault.Replay (replay.Cluster (cluster.Changed p))))
        × (result ≢ Err (RestartFault.Walk (walk.File (file.Changed p)))) }
{
    carry_out(alloc, tree, root, custom)
}
