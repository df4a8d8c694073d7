// The public call that replays where no extension hands a manager in.
ghost use Rattle.std.specs.Prelude.{◌≡◌, ◌≢◌, ◌≤◌, length, Err, None, Ok, IfErr, IfOk, IsErrOf, IsTrue, OnOk, is_ok};
ghost use Rattle.cluster_tree.specs.Causes.{Rose};
ghost use Rattle.cluster_tree.specs.Frame.{Came, moment_of};
ghost use Rattle.cluster_tree.specs.PathValue.{PathValue};
ghost use Rattle.cluster_tree.specs.Run.{state_by};
ghost use Rattle.cluster_tree.specs.Stops.{LeavesOnly};
ghost use Rattle.clusters.specs.declared.fault.ClusterFault.TheVariants as cluster;
ghost use Rattle.replay_start.specs.Checked.{Start, start_of};
ghost use Rattle.replay_start.specs.declared.fault.ReplayFault.{ReplayFault};
ghost use Rattle.replay_core.specs.Replayed.{after_replay};
ghost use Rattle.replay_core.specs.Sparing.{LeavesUntouched};
ghost use Rattle.replay_core.specs.Stops.{IsDurable, IsLeftByReplay};
ghost use Rattle.replay_core.specs.Went.{IsAfter, IsCause, Went};
ghost use Rattle.replay_core.specs.Within.{LeavesMark, LogStays, StaysWithin};

use crate::outcome::Replayed;
use crate::replaying::replay_with;
use cluster_tree::{Path, Tree};
use replay_start::ReplayFault;
use rmgr_hooks::NoManager;
use std::alloc::Global;

/// Replays a cluster's log into its files, as `replay_with` does without a manager of an extension: each
/// record of an extension is refused.
pub fn replay<F: Tree>(alloc: Global, tree: &mut F, root: &Path) -> Result<Replayed, ReplayFault>
    requires room { length root.now.parts ≤ 61 }
    ensures done { IsTrue F.tells → IfOk result (λ done.
        IsAfter (after_replay None (F.contents tree.old) root.now) done (F.contents tree.new)) }
    ensures refused { IsTrue F.tells → IfErr result
        (IsCause (after_replay None (F.contents tree.old) root.now)) }
    ensures went { IsTrue F.tells → Went root.now (state_by F.contents F.calls tree.old)
        (state_by F.contents F.calls tree.new) (is_ok result) }
    ensures within { IsTrue F.tells → StaysWithin root.now (state_by F.contents F.calls tree.old)
        (state_by F.contents F.calls tree.new) }
    ensures log { IsTrue F.tells → LogStays root.now (F.contents tree.old) (F.contents tree.new) }
    ensures checked { IsTrue F.tells → (e : ReplayFault) →
        start_of None (F.contents tree.old) root.now ≡ Err e →
        moment_of F.Tree tree.new ≡ moment_of F.Tree tree.old }
    ensures unwritten { IsTrue F.tells → (e : ReplayFault) →
        start_of None (F.contents tree.old) root.now ≡ Err e → result ≢ Err ReplayFault.WriteFault }
    ensures stands { IsTrue F.tells → (s : Start) →
        start_of None (F.contents tree.old) root.now ≡ Ok s →
        IfErr result (LeavesMark root.now (F.contents tree.new)) }
    ensures stops { IsTrue F.tells → LeavesOnly
        (IsLeftByReplay None root.now (moment_of F.Tree tree.old))
        (F.stops tree.old) (F.stops tree.new) }
    ensures synced { IsTrue F.tells → OnOk result (IsDurable (moment_of F.Tree tree.new)) }
    ensures spares { IsTrue F.tells → (s : Start) →
        start_of None (F.contents tree.old) root.now ≡ Ok s → LeavesUntouched None root.now s
        (moment_of F.Tree tree.old) (moment_of F.Tree tree.new) }
    ensures frame { Came F.Tree tree.old tree.new }
    ensures read_fault { IsErrOf result (ReplayFault.Cluster cluster.ReadFault) →
        Rose (F.failed_reads tree.old) (F.failed_reads tree.new) }
    ensures write_fault { IsErrOf result ReplayFault.WriteFault →
        Rose (F.failed_changes tree.old) (F.failed_changes tree.new) }
    ensures changed { IsTrue F.tells → (p : PathValue) →
        result ≢ Err (ReplayFault.Cluster (cluster.Changed p)) }
{
    replay_with(alloc, tree, root, None::<&NoManager>)
}
