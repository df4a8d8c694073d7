// A replay that had ended: its mark and copies are removed.
ghost use Rattle.std.specs.Prelude.{◌≡◌, ◌≢◌, ◌≤◌, length, Err, IsErrOf, IsTrue, Option, Ok};
ghost use Rattle.cluster_tree.specs.Causes.{Rose};
ghost use Rattle.cluster_tree.specs.Frame.{Came, moment_of};
ghost use Rattle.cluster_tree.specs.PathValue.{PathValue};
ghost use Rattle.cluster_tree.specs.declared.file_fault.FileFault.TheVariants as file;
ghost use Rattle.clusters.specs.declared.fault.ClusterFault.TheVariants as cluster;
ghost use Rattle.file_walk.specs.declared.fault.WalkFault.TheVariants as walk;
ghost use Rattle.replay_restart.specs.Left.{Restarts};
ghost use Rattle.replay_restart.specs.Meant.{taken_of};
ghost use Rattle.replay_start.specs.declared.fault.ReplayFault.TheVariants as replay;
ghost use Rattle.rmgr_hooks.specs.Custom.{Extension};
ghost use Rattle.stored_replay.specs.Stored.{HadEnded};

use crate::fault::RestartFault;
use crate::outcome::Restarted;
use crate::syncing::sync;
use cluster_tree::{Path, Tree};
use replay_copies::clear_copies;
use std::alloc::Global;

/// Removes the copies and the mark of a replay that had ended.
pub(crate) fn end_again<F: Tree>(
    alloc: Global,
    tree: &mut F,
    root: &Path,
) -> Result<Restarted, RestartFault>
    requires room { length root.now.parts ≤ 61 }
    ensures restarts { IsTrue F.tells → taken_of (F.contents tree.old) root.now ≡ Ok HadEnded →
        (custom : Option Extension) → Restarts custom root.now (moment_of F.Tree tree.old)
        (moment_of F.Tree tree.new) result }
    ensures frame { Came F.Tree tree.old tree.new }
    ensures read_fault { IsErrOf result (RestartFault.Replay (replay.Cluster cluster.ReadFault)) →
        Rose (F.failed_reads tree.old) (F.failed_reads tree.new) }
    ensures walk_fault { IsErrOf result (RestartFault.Walk (walk.File file.ReadFault)) →
        Rose (F.failed_reads tree.old) (F.failed_reads tree.new) }
    // a walk only reads
    ensures walk_reads { result ≢ Err (RestartFault.Walk (walk.File file.WriteFault)) }
    ensures write_fault { IsErrOf result (RestartFault.Replay replay.WriteFault) →
        Rose (F.failed_changes tree.old) (F.failed_changes tree.new) }
    ensures changed { IsTrue F.tells → taken_of (F.contents tree.old) root.now ≡ Ok HadEnded → (p : PathValue) →
        (result ≢ Err (RestartFault.Replay (replay.Cluster (cluster.Changed p))))
        × (result ≢ Err (RestartFault.Walk (walk.File (file.Changed p)))) }
{
    sync(tree)?;
    clear_copies(alloc, tree, root)?;
    Ok(Restarted::HadEnded)
}
