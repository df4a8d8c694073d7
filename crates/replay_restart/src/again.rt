// A replay that is begun again.
ghost use Rattle.std.specs.Prelude.{◌≡◌, ◌≢◌, ◌≤◌, length, Err, IsErrOf, IsTrue, Ok};
ghost use Rattle.cluster_tree.specs.Causes.{Rose};
ghost use Rattle.cluster_tree.specs.Frame.{Came, moment_of};
ghost use Rattle.cluster_tree.specs.PathValue.{PathValue};
ghost use Rattle.cluster_tree.specs.declared.file_fault.FileFault.TheVariants as file;
ghost use Rattle.clusters.specs.declared.fault.ClusterFault.TheVariants as cluster;
ghost use Rattle.file_walk.specs.declared.fault.WalkFault.TheVariants as walk;
ghost use Rattle.replay_restart.specs.Left.{BringsBack, Restarts};
ghost use Rattle.replay_restart.specs.Meant.{taken_of};
ghost use Rattle.replay_restore.specs.Restored.{CanRestore};
ghost use Rattle.replay_start.specs.declared.fault.ReplayFault.TheVariants as replay;
ghost use Rattle.rmgr_hooks.specs.Custom.{handed_in};
ghost use Rattle.stored_replay.specs.Stored.{Begun};

use crate::fault::RestartFault;
use crate::outcome::Restarted;
use crate::over::replay_over;
use crate::syncing::sync;
use cluster_tree::{Path, Tree};
use replay_list::Listed;
use replay_restore::restore_areas;
use restart_start::start_again;
use rmgr_hooks::Manager;
use std::alloc::Global;

// Brings back what is listed, between two syncs.
fn bring_back<F: Tree>(
    alloc: Global,
    tree: &mut F,
    root: &Path,
    listed: &[Listed],
) -> Result<(), RestartFault>
    requires room { length root.now.parts ≤ 61 }
    ensures brings { IsTrue F.tells → CanRestore root.now listed.now (F.contents tree.old) →
        BringsBack root.now listed.now (moment_of F.Tree tree.old) (moment_of F.Tree tree.new) result }
    ensures frame { Came F.Tree tree.old tree.new }
    ensures read_fault { IsErrOf result (RestartFault.Replay (replay.Cluster cluster.ReadFault)) →
        Rose (F.failed_reads tree.old) (F.failed_reads tree.new) }
    ensures walk_fault { IsErrOf result (RestartFault.Walk (walk.File file.ReadFault)) →
        Rose (F.failed_reads tree.old) (F.failed_reads tree.new) }
    // a walk only reads
    ensures walk_reads { result ≢ Err (RestartFault.Walk (walk.File file.WriteFault)) }
    ensures write_fault { IsErrOf result (RestartFault.Replay replay.WriteFault) →
        Rose (F.failed_changes tree.old) (F.failed_changes tree.new) }
    ensures changed { IsTrue F.tells → CanRestore root.now listed.now (F.contents tree.old) → (p : PathValue) →
        (result ≢ Err (RestartFault.Replay (replay.Cluster (cluster.Changed p))))
        × (result ≢ Err (RestartFault.Walk (walk.File (file.Changed p)))) }
{
    sync(tree)?;
    restore_areas(alloc, tree, root, listed)?;
    sync(tree)
}

/// Brings back what the mark lists, and carries the replay out.
pub(crate) fn replay_again<F: Tree, M: Manager>(
    alloc: Global,
    tree: &mut F,
    root: &Path,
    listed: &[Listed],
    custom: Option<&M>,
) -> Result<Restarted, RestartFault>
    requires room { length root.now.parts ≤ 61 }
    requires taken { IsTrue F.tells →
        taken_of (F.contents tree.old) root.now ≡ Ok (Begun listed.now) }
    requires can { IsTrue F.tells → CanRestore root.now listed.now (F.contents tree.old) }
    ensures restarts { IsTrue F.tells → Restarts (handed_in M.Manager custom.entry) root.now
        (moment_of F.Tree tree.old) (moment_of F.Tree tree.new) result }
    ensures frame { Came F.Tree tree.old tree.new }
    ensures read_fault { IsErrOf result (RestartFault.Replay (replay.Cluster cluster.ReadFault)) →
        Rose (F.failed_reads tree.old) (F.failed_reads tree.new) }
    ensures walk_fault { IsErrOf result (RestartFault.Walk (walk.File file.ReadFault)) →
        Rose (F.failed_reads tree.old) (F.failed_reads tree.new) }
    // a walk only reads
    ensures walk_reads { result ≢ Err (RestartFault.Walk (walk.File file.WriteFault)) }
    ensures write_fault { IsErrOf result (RestartFault.Replay replay.WriteFault) →
        Rose (F.failed_changes tree.old) (F.failed_changes tree.new) }
    ensures changed { IsTrue F.tells → (p : PathValue) →
        (result ≢ Err (RestartFault.Replay (replay.Cluster (cluster.Changed p))))
        × (result ≢ Err (RestartFault.Walk (walk.File (file.Changed p)))) }
{
    bring_back(alloc, tree, root, listed)?;
    let begun = start_again(alloc, tree, root, custom)?;
    let count = replay_over(alloc, tree, root, begun.checked, custom)?;
    Ok(Restarted::Replayed(count))
}
