// The second reading of the log: each record is replayed. What memory it needs beside is taken first.
ghost use Rattle.std.specs.Prelude.{◌≡◌, ◌≢◌, ◌⊎◌, ◌+◌, ◌-◌, ◌≤◌, ◌<◌, ◌^◌, [], false, length, Err, IfErr, IfOk, IsErrOf, IsTrue, None, Ok};
ghost use Rattle.block_refs.specs.Parts.{ArePartsOf};
ghost use Rattle.cluster_tree.specs.Causes.{Rose};
ghost use Rattle.cluster_tree.specs.Contents.{Contents};
ghost use Rattle.cluster_tree.specs.Frame.{Came};
ghost use Rattle.cluster_tree.specs.PathValue.{PathValue};
ghost use Rattle.clusters.specs.Roots.{wal_folder};
ghost use Rattle.control_file.specs.Admission.{IsControl};
ghost use Rattle.file_edits.specs.Own.{OnOwn};
ghost use Rattle.file_effects.specs.Own.{is_replayed};
ghost use Rattle.file_effects.specs.Touched.{SparesBlocks};
ghost use Rattle.block_refs.specs.declared.names.BlockName.{BlockName};
ghost use Rattle.replay_world.specs.Touched.{touched_by};
ghost use Rattle.replay_profile.specs.Profile.{first_outside, judged};
ghost use Rattle.replay_profile.specs.declared.fault.ProfileFault.{ProfileFault};
ghost use Rattle.storage_replay.specs.Files.{AreFit};
ghost use Rattle.wal_base.specs.Segment.{bytes_of};
ghost use Rattle.wal_records.specs.Cursor.{Knows, going_on_at, to_come};
ghost use Rattle.wal_records.specs.Further.{pages_of};
ghost use Rattle.wal_records.specs.Log.{log_of};
ghost use Rattle.wal_records.specs.Place.{place_at};
ghost use Rattle.replay_world.specs.World.{world_of};
ghost use Rattle.replay_core.specs.Stages.{HasLog, records_in};
ghost use Rattle.replay_core.specs.Steps.{IsReplayedLog, MovesOn, ReplaysAll, ReplaysNext};
ghost use Rattle.clusters.specs.declared.fault.ClusterFault.TheVariants as cluster;
ghost use Rattle.rmgr_hooks.specs.Custom.{handed_in};

use crate::faults::of_record;
use block_refs::Parts;
use cluster_tree::{Path, Tree};
use clusters::ClusterFault;
use control_file::Control;
use page_layout::Page;
use replay_profile::judge;
use replay_start::{Checked, ReplayFault};
use replay_world::{Files, Replaying, Skipped, replay_record};
use rmgr_hooks::Manager;
use std::alloc::Global;
use wal_base::Lsn;
use wal_records::{Record, RecordCursor, Step};

/// How many records were replayed so far, and where the last of them ends.
#[derive(Clone, Copy)]
pub(crate) struct Count {
    pub(crate) records: u64,
    pub(crate) end: Lsn,
}

/// How the reading of a log goes on.
#[derive(Clone, Copy)]
pub(crate) enum Turn {
    /// With the next record.
    More,
    /// No further.
    Done,
}

/// Room for one record: its parts, and a page.
#[derive(Drop)]
pub(crate) struct Room {
    pub(crate) parts: Parts,
    pub(crate) page: Page,
}

// Judges a record as it was judged before: where it isn't taken now, the log was changed.
fn judge_again<M: Manager>(
    alloc: Global,
    log: &Path,
    rec: &Record,
    parts: &mut Parts,
    custom: Option<&M>,
) -> Result<(), ReplayFault>
    ensures parts { IfOk result (λ _. judged (handed_in M.Manager custom.entry) rec.now ≡ Ok
        parts.new) }
    ensures of { IfOk result (λ _. ArePartsOf rec.now parts.new) }
    ensures refused { IfErr result (λ e. (e ≡ ReplayFault.Cluster cluster.OutOfMemory)
        ⊎ ((fault : ProfileFault) × (judged (handed_in M.Manager custom.entry) rec.now ≡ Err
        fault))) }
    ensures read_fault { result ≢ Err (ReplayFault.Cluster cluster.ReadFault) }
    ensures write_fault { result ≢ Err ReplayFault.WriteFault }
{
    match judge(rec, parts, custom) {
        Ok(()) => Ok(()),
        Err(_) => Err(ReplayFault::Cluster(ClusterFault::Changed(log.copy(alloc)?))),
    }
}

// A record more.
fn count_on(count: Count, rec: &Record) -> Count
    requires { count.records < 2 ^ 64 - 1 }
    ensures { result ≡ record { records = count.records + 1; end = record { 0 = rec.now.end } } }
{
    Count {
        records: count.records + 1,
        end: rec.end(),
    }
}

// Reads the next record, and replays it.
fn replay_next<F: Tree, M: Manager>(
    alloc: Global,
    tree: &mut F,
    log: &Path,
    cursor: &mut RecordCursor,
    world: &mut Replaying,
    room: &mut Room,
    count: &mut Count,
    custom: Option<&M>,
) -> Result<Turn, ReplayFault>
    requires opened { cursor.old.ended ≡ None }
    requires fit { AreFit world.old.files }
    requires within { cursor.old.place < 2 ^ 64 }
    requires below { count.old.records ≤ cursor.old.place }
    requires folder { cursor.old.log.folder ≡ wal_folder world.old.files.root }
    requires knows { IsTrue F.tells → Knows cursor.old (F.contents tree.old) }
    requires taken { IsTrue F.tells →
        first_outside (handed_in M.Manager custom) (to_come cursor.old
        (F.contents tree.old)).records ≡ None }
    ensures step { IsTrue F.tells → ReplaysNext (handed_in M.Manager custom.entry)
        world.old.files.root world.old.files.per_file
        (to_come cursor.old (F.contents tree.old)).records
        (to_come cursor.new (F.contents tree.new)).records
        (world_of (F.contents tree.old) world.old) (world_of (F.contents tree.new) world.new)
        count.old count.new result }
    ensures moves { IfOk result (MovesOn cursor.old cursor.new count.old count.new) }
    ensures knows { IsTrue F.tells → Knows cursor.new (F.contents tree.new) }
    ensures log { cursor.new.log ≡ cursor.old.log }
    ensures files { world.new.files ≡ world.old.files }
    ensures control { IsControl world.old.control → IsControl world.new.control }
    ensures frame { Came F.Tree tree.old tree.new }
    ensures own { IsTrue F.tells →
        OnOwn F.calls (is_replayed world.old.files.root) tree.old tree.new }
    ensures spares { IsTrue F.tells → SparesBlocks F.Tree world.old.files.root
        world.old.files.per_file (touched_by (handed_in M.Manager custom.entry)
        (to_come cursor.old (F.contents tree.old)).records) tree.old tree.new }
    ensures fewer { IsTrue F.tells → result ≡ Ok Turn.More → (name : BlockName) →
        touched_by (handed_in M.Manager custom.entry)
        (to_come cursor.old (F.contents tree.old)).records name ≡ false →
        touched_by (handed_in M.Manager custom.entry)
        (to_come cursor.new (F.contents tree.new)).records name ≡ false }
    ensures read_fault { IsErrOf result (ReplayFault.Cluster cluster.ReadFault) →
        Rose (F.failed_reads tree.old) (F.failed_reads tree.new) }
    ensures write_fault { IsErrOf result ReplayFault.WriteFault →
        Rose (F.failed_changes tree.old) (F.failed_changes tree.new) }
    ensures changed { IsTrue F.tells → (p : PathValue) →
        result ≢ Err (ReplayFault.Cluster (cluster.Changed p)) }
{
    match cursor.next_unchanged(tree)? {
        Step::Record => {}
        Step::End(_, _) => return Ok(Turn::Done),
    }
    let rec = cursor.current().unwrap();
    judge_again(alloc, log, rec, &mut room.parts, custom)?;
    match replay_record(alloc, tree, world, rec, &room.parts, &mut room.page, custom) {
        Ok(()) => {}
        Err(fault) => return Err(of_record(fault)),
    }
    *count = count_on(*count, rec);
    Ok(Turn::More)
}

// Replays what a cursor has still to give.
fn replay_all<F: Tree, M: Manager>(
    alloc: Global,
    tree: &mut F,
    log: &Path,
    cursor: &mut RecordCursor,
    world: &mut Replaying,
    room: &mut Room,
    count: &mut Count,
    custom: Option<&M>,
) -> Result<(), ReplayFault>
    requires opened { cursor.old.ended ≡ None }
    requires fit { AreFit world.old.files }
    requires within { cursor.old.place < 2 ^ 64 }
    requires below { count.old.records ≤ cursor.old.place }
    requires folder { cursor.old.log.folder ≡ wal_folder world.old.files.root }
    requires knows { IsTrue F.tells → Knows cursor.old (F.contents tree.old) }
    requires taken { IsTrue F.tells →
        first_outside (handed_in M.Manager custom) (to_come cursor.old
        (F.contents tree.old)).records ≡ None }
    ensures all { IsTrue F.tells → ReplaysAll (handed_in M.Manager custom.entry)
        world.old.files.root world.old.files.per_file
        (to_come cursor.old (F.contents tree.old)).records
        (world_of (F.contents tree.old) world.old) (world_of (F.contents tree.new) world.new)
        count.old count.new result }
    ensures files { world.new.files ≡ world.old.files }
    ensures control { IsControl world.old.control → IsControl world.new.control }
    ensures frame { Came F.Tree tree.old tree.new }
    ensures own { IsTrue F.tells →
        OnOwn F.calls (is_replayed world.old.files.root) tree.old tree.new }
    ensures spares { IsTrue F.tells → SparesBlocks F.Tree world.old.files.root
        world.old.files.per_file (touched_by (handed_in M.Manager custom.entry)
        (to_come cursor.old (F.contents tree.old)).records) tree.old tree.new }
    ensures read_fault { IsErrOf result (ReplayFault.Cluster cluster.ReadFault) →
        Rose (F.failed_reads tree.old) (F.failed_reads tree.new) }
    ensures write_fault { IsErrOf result ReplayFault.WriteFault →
        Rose (F.failed_changes tree.old) (F.failed_changes tree.new) }
    ensures changed { IsTrue F.tells → (p : PathValue) →
        result ≢ Err (ReplayFault.Cluster (cluster.Changed p)) }
{
    'records: loop {
        match replay_next(alloc, tree, log, cursor, world, room, count, custom) {
            Ok(Turn::More) => {}
            Ok(Turn::Done) => return Ok(()),
            Err(e) => return Err(e),
        }
    }
}

// Puts a cursor before the first record from a position on.
fn go_back(cursor: &mut RecordCursor, at: u64)
    ensures value { cursor.new
        ≡ going_on_at cursor.old (place_at (bytes_of cursor.old.log.size) at) }
    ensures within { cursor.new.place < 2 ^ 64 }
    ensures starts { (contents : Contents) → to_come cursor.new contents
        ≡ log_of (pages_of cursor.old.log contents) (bytes_of cursor.old.log.size) at }
    ensures knows { (contents : Contents) → Knows cursor.old contents → Knows cursor.new contents }
{
    cursor.go_to(Lsn(at));
}

/// Replays a whole log that was checked, from its label's start on, and tells what was replayed.
pub(crate) fn replay_log<F: Tree, M: Manager>(
    alloc: Global,
    tree: &mut F,
    log: &Path,
    checked: &mut Checked,
    world: &mut Replaying,
    room: &mut Room,
    custom: Option<&M>,
) -> Result<Count, ReplayFault>
    requires fit { AreFit world.old.files }
    requires folder { checked.old.cursor.log.folder ≡ wal_folder world.old.files.root }
    requires control { IsControl world.old.control }
    requires log { IsTrue F.tells → HasLog (handed_in M.Manager custom) checked.old
        (F.contents tree.old) }
    ensures all { IsTrue F.tells → IsReplayedLog (handed_in M.Manager custom.entry)
        world.old.files.root world.old.files.per_file
        checked.old.label.start.0 (records_in checked.old (F.contents tree.old))
        (world_of (F.contents tree.old) world.old) (world_of (F.contents tree.new) world.new) result }
    ensures files { world.new.files ≡ world.old.files }
    ensures control { IsControl world.new.control }
    ensures frame { Came F.Tree tree.old tree.new }
    ensures own { IsTrue F.tells →
        OnOwn F.calls (is_replayed world.old.files.root) tree.old tree.new }
    ensures spares { IsTrue F.tells → SparesBlocks F.Tree world.old.files.root
        world.old.files.per_file (touched_by (handed_in M.Manager custom.entry)
        (records_in checked.old (F.contents tree.old))) tree.old tree.new }
    ensures read_fault { IsErrOf result (ReplayFault.Cluster cluster.ReadFault) →
        Rose (F.failed_reads tree.old) (F.failed_reads tree.new) }
    ensures write_fault { IsErrOf result ReplayFault.WriteFault →
        Rose (F.failed_changes tree.old) (F.failed_changes tree.new) }
    ensures changed { IsTrue F.tells → (p : PathValue) →
        result ≢ Err (ReplayFault.Cluster (cluster.Changed p)) }
{
    let cursor = &mut checked.cursor;
    go_back(cursor, checked.label.start.0);
    let mut count = Count {
        records: 0,
        end: checked.label.start,
    };
    replay_all(alloc, tree, log, cursor, world, room, &mut count, custom)?;
    if count.end.0 != checked.end.0 {
        return Err(ReplayFault::Cluster(ClusterFault::Changed(log.copy(alloc)?)));
    }
    Ok(count)
}

/// What a replay keeps beside the files, before the first record.
pub(crate) fn world_at(
    alloc: Global,
    root: &Path,
    control: Control,
) -> Result<Replaying, ReplayFault>
    requires room { length root.now.parts ≤ 61 }
    requires control { IsControl control }
    ensures root { IfOk result (λ world. world.files.root ≡ root.now) }
    ensures per_file { IfOk result (λ world. world.files.per_file ≡ control.relseg) }
    ensures fit { IfOk result (λ world. AreFit world.files) }
    ensures control { IfOk result (λ world. world.control ≡ control) }
    ensures skipped { IfOk result (λ world. world.skipped ≡ []) }
    ensures memory { IfErr result (λ e. e ≡ ReplayFault.Cluster cluster.OutOfMemory) }
{
    Ok(Replaying {
        files: Files {
            root: root.copy(alloc)?,
            per_file: control.relseg,
        },
        control,
        skipped: Skipped::new(alloc),
    })
}

/// Room for one record.
pub(crate) fn make_room(alloc: Global) -> Result<Room, ReplayFault>
    ensures memory { IfErr result (λ e. e ≡ ReplayFault.Cluster cluster.OutOfMemory) }
{
    Ok(Room {
        parts: Parts::new(),
        page: Page::zero(alloc)?,
    })
}
