// The public call that replays under a mark that its caller laid.
ghost use Rattle.std.specs.Prelude.{◌≡◌, ◌≢◌, ◌≤◌, length, Err, IsErrOf, IsTrue};
ghost use Rattle.cluster_tree.specs.Causes.{Rose};
ghost use Rattle.cluster_tree.specs.Frame.{Came, moment_of};
ghost use Rattle.cluster_tree.specs.PathValue.{PathValue};
ghost use Rattle.cluster_tree.specs.Stops.{LeavesOnly};
ghost use Rattle.clusters.specs.Roots.{wal_folder};
ghost use Rattle.clusters.specs.declared.fault.ClusterFault.TheVariants as cluster;
ghost use Rattle.control_file.specs.Admission.{IsControl};
ghost use Rattle.file_edits.specs.Own.{OnOwn};
ghost use Rattle.marked_runs.specs.Moments.{StandsSynced};
ghost use Rattle.replay_core.specs.Sparing.{LeavesUntouched};
ghost use Rattle.replay_core.specs.Under.{SameBesideReplay, WasChecked, WasStart, is_changed_by_replay, replayed_under};
ghost use Rattle.replay_core.specs.Went.{Answers};
ghost use Rattle.replay_start.specs.Checked.{Start};
ghost use Rattle.rmgr_hooks.specs.Custom.{handed_in};

use crate::closing::settle;
use crate::outcome::Replayed;
use crate::paths::Paths;
use crate::running::{make_room, replay_log, world_at};
use cluster_tree::{Path, Tree};
use replay_start::{Checked, ReplayFault};
use rmgr_hooks::Manager;
use std::alloc::Global;

/// Replays the log of a cluster that `check` of replay_start passed, under a mark that its caller laid
/// since: what `replay_with` does between making its mark and removing it, with no mark of its own.
/// The caller's mark stays, and nothing is synced.
///
/// Answers what `replay_with` answers behind its checks: at the record that meets it `RedoFailed`, or
/// `Link`, `NotFolder`, `KindsDiffer`, `NameNotText` and `TooDeep` for an entry that the record needs;
/// and behind the last record `MissingPage` of the least block that was changed and wasn't there. After
/// a refusal what earlier records changed stays. `ReadFault`, `WriteFault` and `OutOfMemory` may come
/// at any point, and `Changed` never where the tree tells.
pub fn replay_marked<F: Tree, M: Manager>(
    alloc: Global,
    tree: &mut F,
    root: &Path,
    mut checked: Checked,
    custom: Option<&M>,
) -> Result<Replayed, ReplayFault>
    requires room { length root.now.parts ≤ 61 }
    requires control { IsControl checked.control }
    requires folder { checked.cursor.log.folder ≡ wal_folder root.now }
    requires checked { IsTrue F.tells → WasChecked (handed_in M.Manager custom) root.now checked
        (F.contents tree.old) }
    // what is left is what is meant, and so is what is told of it; or why the replay broke off
    ensures exact { IsTrue F.tells → (start : Start) →
        WasStart (handed_in M.Manager custom.entry) root.now checked start (F.contents tree.old) →
        Answers (replayed_under (handed_in M.Manager custom.entry) root.now start
        (F.contents tree.old)) (F.contents tree.new) result }
    // calls are made at paths that records change, at the control file and at the label alone, and all
    // else is as it was
    ensures own { IsTrue F.tells →
        OnOwn F.calls (is_changed_by_replay root.now) tree.old tree.new }
    ensures elsewhere { IsTrue F.tells →
        SameBesideReplay root.now (F.contents tree.old) (F.contents tree.new) }
    // and so is it in all that a stop at any moment leaves, where what stands is synced at the start
    ensures stops { IsTrue F.tells →
        StandsSynced (F.contents tree.old) (moment_of F.Tree tree.old) → LeavesOnly
        (SameBesideReplay root.now (F.contents tree.old)) (F.stops tree.old) (F.stops tree.new) }
    // each block that no record touches has its page through all of that
    ensures spares { IsTrue F.tells → (start : Start) →
        WasStart (handed_in M.Manager custom.entry) root.now checked start (F.contents tree.old) →
        LeavesUntouched (handed_in M.Manager custom.entry) root.now start
        (moment_of F.Tree tree.old) (moment_of F.Tree tree.new) }
    ensures frame { Came F.Tree tree.old tree.new }
    ensures read_fault { IsErrOf result (ReplayFault.Cluster cluster.ReadFault) →
        Rose (F.failed_reads tree.old) (F.failed_reads tree.new) }
    ensures write_fault { IsErrOf result ReplayFault.WriteFault →
        Rose (F.failed_changes tree.old) (F.failed_changes tree.new) }
    ensures changed { IsTrue F.tells → (p : PathValue) →
        result ≢ Err (ReplayFault.Cluster (cluster.Changed p)) }
{
    let paths = Paths::of(alloc, root)?;
    let mut world = world_at(alloc, root, checked.control)?;
    let mut room = make_room(alloc)?;
    let tli = checked.control.timeline();
    let count = replay_log(
        alloc,
        tree,
        &paths.log,
        &mut checked,
        &mut world,
        &mut room,
        custom,
    )?;
    settle(tree, paths.control, paths.label, &world, tli, count)
}
