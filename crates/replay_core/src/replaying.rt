// The public call that replays.
ghost use Rattle.std.specs.Prelude.{◌≡◌, ◌≢◌, ◌≤◌, true, length, Err, Ok, IfErr, IfOk, IsErrOf, IsTrue, OnOk, is_ok};
ghost use Rattle.cluster_tree.specs.Causes.{Rose};
ghost use Rattle.cluster_tree.specs.Frame.{Came, moment_of};
ghost use Rattle.cluster_tree.specs.PathValue.{PathValue};
ghost use Rattle.cluster_tree.specs.Run.{State, state_by};
ghost use Rattle.cluster_tree.specs.Stops.{LeavesOnly};
ghost use Rattle.clusters.specs.Roots.{wal_folder};
ghost use Rattle.control_file.specs.Admission.{IsControl};
ghost use Rattle.file_edits.specs.Sparing.{Piece, Spares};
ghost use Rattle.file_effects.specs.Own.{is_replayed};
ghost use Rattle.file_effects.specs.Touched.{SparesBlocks};
ghost use Rattle.replay_world.specs.Touched.{touched_by};
ghost use Rattle.replay_core.specs.Sparing.{LeavesUntouched};
ghost use Rattle.marked_runs.specs.Moments.{StandsMarked};
ghost use Rattle.storage_replay.specs.Files.{AreFit};
ghost use Rattle.replay_start.specs.Checked.{Start, start_of};
ghost use Rattle.replay_start.specs.declared.fault.ReplayFault.{ReplayFault};
ghost use Rattle.replay_world.specs.World.{world_of};
ghost use Rattle.replay_core.specs.Replayed.{after_replay, closed_or, first_world, mark_of, replayed_into};
ghost use Rattle.replay_core.specs.Stages.{ArePaths, HasLog, IsChecked, Stand, records_in, start_in};
ghost use Rattle.replay_core.specs.Stops.{IsDurable, IsLeft, IsLeftByReplay, IsMarkedOrDone};
ghost use Rattle.replay_core.specs.Within.{LeavesMark, LogStays, StaysWithin};
ghost use Rattle.replay_core.specs.Went.{Answers, IsAfter, IsCause, RanRecords, Went, WentOn};
ghost use Rattle.clusters.specs.declared.fault.ClusterFault.TheVariants as cluster;
ghost use Rattle.rmgr_hooks.specs.Custom.{handed_in};

use crate::closing::{begin_mark, settle, unmark};
use crate::faults::of_perform;
use crate::outcome::Replayed;
use crate::paths::Paths;
use crate::running::{Count, Room, make_room, replay_log, world_at};
use cluster_tree::{Path, Tree};
use marked_runs::about;
use replay_start::{Checked, ReplayFault, check};
use replay_world::Replaying;
use rmgr_hooks::Manager;
use std::alloc::Global;

// What is left to do behind the last record, and the end of the mark.
fn finish<F: Tree>(
    tree: &mut F,
    paths: Paths,
    world: Replaying,
    tli: u32,
    count: Count,
) -> Result<Replayed, ReplayFault>
    requires control { IsControl world.control }
    requires paths { ArePaths world.files.root paths }
    requires stand { IsTrue F.tells → Stand (F.contents tree.old) world.files.root }
    ensures exact { IsTrue F.tells → Answers (closed_or world.files.root tli count.records count.end.0
        (world_of (F.contents tree.old) world)) (F.contents tree.new) result }
    ensures went { IsTrue F.tells → (marked : State) →
        RanRecords world.files.root marked (state_by F.contents F.calls tree.old) →
        WentOn world.files.root marked (state_by F.contents F.calls tree.new) (is_ok result) }
    ensures stands { IsTrue F.tells →
        IfErr result (LeavesMark world.files.root (F.contents tree.new)) }
    ensures stops { IsTrue F.tells →
        StandsMarked (mark_of world.files.root) (moment_of F.Tree tree.old) → LeavesOnly
        (IsMarkedOrDone world.files.root (closed_or world.files.root tli count.records count.end.0
        (world_of (F.contents tree.old) world))) (F.stops tree.old) (F.stops tree.new) }
    ensures synced { IsTrue F.tells → OnOk result (IsDurable (moment_of F.Tree tree.new)) }
    ensures frame { Came F.Tree tree.old tree.new }
    ensures spares { IsTrue F.tells → (piece : Piece) →
        is_replayed world.files.root piece.path ≡ true → Spares F.Tree piece tree.old tree.new }
    ensures read_fault { result ≢ Err (ReplayFault.Cluster cluster.ReadFault) }
    ensures write_fault { IsErrOf result ReplayFault.WriteFault →
        Rose (F.failed_changes tree.old) (F.failed_changes tree.new) }
    ensures changed { IsTrue F.tells → (p : PathValue) →
        result ≢ Err (ReplayFault.Cluster (cluster.Changed p)) }
{
    let told = settle(tree, paths.control, paths.label, &world, tli, count)?;
    match unmark(tree, paths.mark) {
        Ok(()) => Ok(told),
        Err(fault) => Err(of_perform(fault)),
    }
}

// Carries out a replay whose mark was made.
fn replay_begun<F: Tree, M: Manager>(
    alloc: Global,
    tree: &mut F,
    paths: Paths,
    mut checked: Checked,
    mut world: Replaying,
    mut room: Room,
    custom: Option<&M>,
) -> Result<Replayed, ReplayFault>
    requires fit { AreFit world.files }
    requires per_file { world.files.per_file ≡ checked.control.relseg }
    requires folder { checked.cursor.log.folder ≡ wal_folder world.files.root }
    requires control { IsControl world.control }
    requires paths { ArePaths world.files.root paths }
    requires log { IsTrue F.tells → HasLog (handed_in M.Manager custom) checked
        (F.contents tree.old) }
    requires stand { IsTrue F.tells → Stand (F.contents tree.old) world.files.root }
    ensures exact { IsTrue F.tells → Answers (replayed_into (handed_in M.Manager custom.entry)
        world.files.root
        (start_in checked (F.contents tree.old)) (world_of (F.contents tree.old) world))
        (F.contents tree.new) result }
    ensures went { IsTrue F.tells → WentOn world.files.root
        (state_by F.contents F.calls tree.old) (state_by F.contents F.calls tree.new) (is_ok result) }
    ensures stands { IsTrue F.tells →
        IfErr result (LeavesMark world.files.root (F.contents tree.new)) }
    ensures stops { IsTrue F.tells →
        StandsMarked (mark_of world.files.root) (moment_of F.Tree tree.old) → LeavesOnly
        (IsMarkedOrDone world.files.root (replayed_into (handed_in M.Manager custom.entry)
        world.files.root
        (start_in checked (F.contents tree.old)) (world_of (F.contents tree.old) world)))
        (F.stops tree.old) (F.stops tree.new) }
    ensures synced { IsTrue F.tells → OnOk result (IsDurable (moment_of F.Tree tree.new)) }
    ensures frame { Came F.Tree tree.old tree.new }
    ensures spares { IsTrue F.tells → SparesBlocks F.Tree world.files.root
        world.files.per_file (touched_by (handed_in M.Manager custom.entry)
        (records_in checked (F.contents tree.old))) tree.old tree.new }
    ensures read_fault { IsErrOf result (ReplayFault.Cluster cluster.ReadFault) →
        Rose (F.failed_reads tree.old) (F.failed_reads tree.new) }
    ensures write_fault { IsErrOf result ReplayFault.WriteFault →
        Rose (F.failed_changes tree.old) (F.failed_changes tree.new) }
    ensures changed { IsTrue F.tells → (p : PathValue) →
        result ≢ Err (ReplayFault.Cluster (cluster.Changed p)) }
{
    let tli = checked.control.timeline();
    let count = replay_log(
        alloc,
        tree,
        &paths.log,
        &mut checked,
        &mut world,
        &mut room,
        custom,
    )?;
    finish(tree, paths, world, tli, count)
}

// Carries out a replay that was checked: the memory that it needs of its own is taken before the mark.
fn replay_checked<F: Tree, M: Manager>(
    alloc: Global,
    tree: &mut F,
    root: &Path,
    checked: Checked,
    custom: Option<&M>,
) -> Result<Replayed, ReplayFault>
    requires room { length root.now.parts ≤ 61 }
    requires control { IsControl checked.control }
    requires folder { checked.cursor.log.folder ≡ wal_folder root.now }
    requires checked { IsTrue F.tells → IsChecked (handed_in M.Manager custom) (F.contents tree.old)
        root.now checked }
    ensures exact { IsTrue F.tells → Answers (replayed_into (handed_in M.Manager custom.entry)
        root.now
        (start_in checked (F.contents tree.old))
        (first_world (F.contents tree.old) root.now (start_in checked (F.contents tree.old))))
        (F.contents tree.new) result }
    ensures went { IsTrue F.tells → Went root.now (state_by F.contents F.calls tree.old)
        (state_by F.contents F.calls tree.new) (is_ok result) }
    ensures stands { IsTrue F.tells → IfErr result (LeavesMark root.now (F.contents tree.new)) }
    ensures stops { IsTrue F.tells → LeavesOnly
        (IsLeft root.now (moment_of F.Tree tree.old) (replayed_into
        (handed_in M.Manager custom.entry) root.now
        (start_in checked (F.contents tree.old))
        (first_world (F.contents tree.old) root.now (start_in checked (F.contents tree.old)))))
        (F.stops tree.old) (F.stops tree.new) }
    ensures synced { IsTrue F.tells → OnOk result (IsDurable (moment_of F.Tree tree.new)) }
    ensures frame { Came F.Tree tree.old tree.new }
    ensures spares { IsTrue F.tells → SparesBlocks F.Tree root.now
        checked.control.relseg (touched_by (handed_in M.Manager custom.entry)
        (records_in checked (F.contents tree.old))) tree.old tree.new }
    ensures read_fault { IsErrOf result (ReplayFault.Cluster cluster.ReadFault) →
        Rose (F.failed_reads tree.old) (F.failed_reads tree.new) }
    ensures write_fault { IsErrOf result ReplayFault.WriteFault →
        Rose (F.failed_changes tree.old) (F.failed_changes tree.new) }
    ensures changed { IsTrue F.tells → (p : PathValue) →
        result ≢ Err (ReplayFault.Cluster (cluster.Changed p)) }
{
    let paths = Paths::of(alloc, root)?;
    let world = world_at(alloc, root, checked.control)?;
    let room = make_room(alloc)?;
    match begin_mark(tree, &paths.mark) {
        Ok(()) => replay_begun(alloc, tree, paths, checked, world, room, custom),
        Err(fault) => Err(of_perform(about(fault, paths.mark))),
    }
}

/// Replays a cluster's log into its files, from its label's start to the log's end. The mark
/// `pg_walreplay.unfinished` stands from before the first other change until after the last; then the
/// cluster is one that was shut down in recovery. Where a manager of an extension is handed in, the
/// records that it knows are replayed by it.
///
/// Answers, in this order: what `check` refuses, before any change; at the record that
/// meets it `RedoFailed`, or `Link`, `NotFolder`, `KindsDiffer`, `NameNotText` and `TooDeep` for an
/// entry that the record needs; and behind the last record `MissingPage` of the least block that was
/// changed and wasn't there. From its first change on the mark stays, whatever the answer, but for a
/// failure while it is made or removed. `ReadFault`, `WriteFault` and `OutOfMemory` may come at any
/// point, and `Changed` never where the tree tells.
#[tactic(auto, unfolding(crate::specs::Replayed::after_replay))]
pub fn replay_with<F: Tree, M: Manager>(
    alloc: Global,
    tree: &mut F,
    root: &Path,
    custom: Option<&M>,
) -> Result<Replayed, ReplayFault>
    requires room { length root.now.parts ≤ 61 }
    // what is left is what is meant, and so is what is told of it
    ensures done { IsTrue F.tells → IfOk result (λ done.
        IsAfter (after_replay (handed_in M.Manager custom.entry) (F.contents tree.old) root.now)
        done (F.contents tree.new)) }
    ensures refused { IsTrue F.tells → IfErr result
        (IsCause (after_replay (handed_in M.Manager custom.entry) (F.contents tree.old) root.now)) }
    // and this is how far it went
    ensures went { IsTrue F.tells → Went root.now (state_by F.contents F.calls tree.old)
        (state_by F.contents F.calls tree.new) (is_ok result) }
    // what is below the root alone is changed, the log is not, nothing is before every check has
    // passed, and the mark stands where it is refused behind that
    ensures within { IsTrue F.tells → StaysWithin root.now (state_by F.contents F.calls tree.old)
        (state_by F.contents F.calls tree.new) }
    ensures log { IsTrue F.tells → LogStays root.now (F.contents tree.old) (F.contents tree.new) }
    ensures checked { IsTrue F.tells → (e : ReplayFault) →
        start_of (handed_in M.Manager custom.entry) (F.contents tree.old) root.now ≡ Err e →
        moment_of F.Tree tree.new ≡ moment_of F.Tree tree.old }
    ensures unwritten { IsTrue F.tells → (e : ReplayFault) →
        start_of (handed_in M.Manager custom.entry) (F.contents tree.old) root.now ≡ Err e →
        result ≢ Err ReplayFault.WriteFault }
    ensures stands { IsTrue F.tells → (s : Start) →
        start_of (handed_in M.Manager custom.entry) (F.contents tree.old) root.now ≡ Ok s →
        IfErr result (LeavesMark root.now (F.contents tree.new)) }
    // a stop at any moment leaves the cluster untouched, marked, or as it is meant to be left; once the
    // replay is done, it leaves what stands
    ensures stops { IsTrue F.tells → LeavesOnly
        (IsLeftByReplay (handed_in M.Manager custom.entry) root.now (moment_of F.Tree tree.old))
        (F.stops tree.old) (F.stops tree.new) }
    ensures synced { IsTrue F.tells → OnOk result (IsDurable (moment_of F.Tree tree.new)) }
    // and each block that no record touches has its page through all of that
    ensures spares { IsTrue F.tells → (s : Start) →
        start_of (handed_in M.Manager custom.entry) (F.contents tree.old) root.now ≡ Ok s →
        LeavesUntouched (handed_in M.Manager custom.entry) root.now s
        (moment_of F.Tree tree.old) (moment_of F.Tree tree.new) }
    ensures frame { Came F.Tree tree.old tree.new }
    ensures read_fault { IsErrOf result (ReplayFault.Cluster cluster.ReadFault) →
        Rose (F.failed_reads tree.old) (F.failed_reads tree.new) }
    ensures write_fault { IsErrOf result ReplayFault.WriteFault →
        Rose (F.failed_changes tree.old) (F.failed_changes tree.new) }
    ensures changed { IsTrue F.tells → (p : PathValue) →
        result ≢ Err (ReplayFault.Cluster (cluster.Changed p)) }
{
    let checked = check(alloc, tree, root, custom)?;
    replay_checked(alloc, tree, root, checked, custom)
}
