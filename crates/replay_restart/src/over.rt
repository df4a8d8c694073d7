// The replay under a mark that stands, and the end of that mark.
ghost use Rattle.std.specs.Prelude.{◌≡◌, ◌≢◌, ◌≤◌, length, Err, IsErrOf, IsTrue};
ghost use Rattle.cluster_tree.specs.Causes.{Rose};
ghost use Rattle.cluster_tree.specs.Frame.{Came, moment_of};
ghost use Rattle.cluster_tree.specs.PathValue.{PathValue};
ghost use Rattle.cluster_tree.specs.declared.file_fault.FileFault.TheVariants as file;
ghost use Rattle.clusters.specs.Roots.{wal_folder};
ghost use Rattle.clusters.specs.declared.fault.ClusterFault.TheVariants as cluster;
ghost use Rattle.control_file.specs.Admission.{IsControl};
ghost use Rattle.file_walk.specs.declared.fault.WalkFault.TheVariants as walk;
ghost use Rattle.marked_runs.specs.Moments.{StandsSynced};
ghost use Rattle.replay_copies.specs.Ended.{HasMark};
ghost use Rattle.replay_core.specs.Under.{WasChecked, WasStart};
ghost use Rattle.replay_restart.specs.Left.{RunsOver};
ghost use Rattle.replay_start.specs.Checked.{Start};
ghost use Rattle.replay_start.specs.declared.fault.ReplayFault.TheVariants as replay;
ghost use Rattle.rmgr_hooks.specs.Custom.{handed_in};

use crate::fault::RestartFault;
use crate::syncing::sync;
use cluster_tree::{Path, Tree};
use replay_copies::end_copies;
use replay_core::{Replayed, replay_marked};
use replay_start::Checked;
use rmgr_hooks::Manager;
use std::alloc::Global;

/// Replays a log that was checked, over contents in which the mark and the copies stand synced, and ends both.
pub(crate) fn replay_over<F: Tree, M: Manager>(
    alloc: Global,
    tree: &mut F,
    root: &Path,
    checked: Checked,
    custom: Option<&M>,
) -> Result<Replayed, RestartFault>
    requires room { length root.now.parts ≤ 61 }
    requires control { IsControl checked.control }
    requires folder { checked.cursor.log.folder ≡ wal_folder root.now }
    requires checked { IsTrue F.tells → WasChecked (handed_in M.Manager custom) root.now checked
        (F.contents tree.old) }
    ensures runs { IsTrue F.tells → (s : Start) →
        WasStart (handed_in M.Manager custom.entry) root.now checked s (F.contents tree.old) →
        HasMark root.now (F.contents tree.old) →
        StandsSynced (F.contents tree.old) (moment_of F.Tree tree.old) →
        RunsOver (handed_in M.Manager custom.entry) root.now s (moment_of F.Tree tree.old)
        (moment_of F.Tree tree.new) result }
    ensures frame { Came F.Tree tree.old tree.new }
    ensures read_fault { IsErrOf result (RestartFault.Replay (replay.Cluster cluster.ReadFault)) →
        Rose (F.failed_reads tree.old) (F.failed_reads tree.new) }
    ensures walk_fault { IsErrOf result (RestartFault.Walk (walk.File file.ReadFault)) →
        Rose (F.failed_reads tree.old) (F.failed_reads tree.new) }
    // a walk only reads
    ensures walk_reads { result ≢ Err (RestartFault.Walk (walk.File file.WriteFault)) }
    ensures write_fault { IsErrOf result (RestartFault.Replay replay.WriteFault) →
        Rose (F.failed_changes tree.old) (F.failed_changes tree.new) }
    ensures changed { IsTrue F.tells → HasMark root.now (F.contents tree.old) → (p : PathValue) →
        (result ≢ Err (RestartFault.Replay (replay.Cluster (cluster.Changed p))))
        × (result ≢ Err (RestartFault.Walk (walk.File (file.Changed p)))) }
{
    let count = replay_marked(alloc, tree, root, checked, custom)?;
    sync(tree)?;
    end_copies(alloc, tree, root)?;
    Ok(count)
}
