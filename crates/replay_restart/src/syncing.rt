// What was changed is made durable.
ghost use Rattle.std.specs.Prelude.{◌≡◌, IfErr, IsErrOf, IsTrue, OnOk};
ghost use Rattle.cluster_tree.specs.Causes.{Rose};
ghost use Rattle.cluster_tree.specs.Frame.{Came, moment_of, state_of};
ghost use Rattle.cluster_tree.specs.PathValue.{PathValue};
ghost use Rattle.cluster_tree.specs.Stops.{LeavesOnly};
ghost use Rattle.marked_runs.specs.Moments.{IsUntouched, StandsSynced};
ghost use Rattle.replay_core.specs.Within.{StaysWithin};
ghost use Rattle.replay_start.specs.declared.fault.ReplayFault.TheVariants as replay;

use crate::fault::RestartFault;
use cluster_tree::Tree;
use replay_core::ReplayFault;

/// Makes all that was changed durable. A stop leaves what one could have left before.
pub(crate) fn sync<F: Tree>(tree: &mut F) -> Result<(), RestartFault>
    ensures same { IsTrue F.tells → F.contents tree.new ≡ F.contents tree.old }
    ensures synced { IsTrue F.tells →
        OnOk result (StandsSynced (F.contents tree.old) (moment_of F.Tree tree.new)) }
    ensures stops { IsTrue F.tells → LeavesOnly (IsUntouched (moment_of F.Tree tree.old))
        (F.stops tree.old) (F.stops tree.new) }
    ensures within { IsTrue F.tells → (root : PathValue) →
        StaysWithin root (state_of F.Tree tree.old) (state_of F.Tree tree.new) }
    ensures fault { IfErr result (λ e. e ≡ RestartFault.Replay replay.WriteFault) }
    ensures frame { Came F.Tree tree.old tree.new }
    ensures write_fault { IsErrOf result (RestartFault.Replay replay.WriteFault) →
        Rose (F.failed_changes tree.old) (F.failed_changes tree.new) }
{
    match tree.sync() {
        Ok(()) => Ok(()),
        Err(_) => Err(RestartFault::Replay(ReplayFault::WriteFault)),
    }
}
