// Callers whose proofs show that the clauses are enough: what was given so far and what is to come
// are the valid log, reading ends by a measure, and what was written is read back.
ghost use Rattle.std.specs.Prelude.{◌≡◌, ◌≤◌, ◌++◌, None, List, map, length, IsTrue, IfOk};
ghost use Rattle.wal_base.specs.Segment.{bytes_of};
ghost use Rattle.wal_records.specs.Cursor.{to_come};
ghost use Rattle.wal_records.specs.Place.{place_at};
ghost use Rattle.wal_records.specs.Writer.{NewRecord, in_pages};
ghost use Rattle.wal_records.specs.Stored.{Wrote, IsPathOf, IsStored, end_why};

use crate::logs::{FIRST, SYSTEM, log_path, one_timeline, size};
use crate::told::Told;
use crate::written::{log_of, tree_with};
use cluster_tree::Tree;
use memory_tree::{FailPlan, FailingTree};
use std::alloc::Global;
use std::process::Abort;
use wal_base::Lsn;
use wal_pages::LogPath;
use wal_records::{LogFault, LogWriter, RecordCursor, Step, Why, written_log_is_read_back};

/// Adds the transaction of each record that is still to come, and tells the place of the end and
/// why.
fn xids_of<F: Tree>(
    cursor: &mut RecordCursor,
    tree: &mut F,
    xids: &mut Vec<u32>,
) -> Result<(u64, Why), LogFault>
    requires opened { cursor.old.ended ≡ None }
    ensures xids { IsTrue F.tells → IfOk result (λ e. xids.new.items ≡ xids.old.items
        ++ map (λ r. r.header.xid) (to_come cursor.old (F.contents tree.old)).records) }
    ensures place { IsTrue F.tells → IfOk result (λ e.
        (to_come cursor.old (F.contents tree.old)).place ≡ e.0) }
    ensures why { IsTrue F.tells → IfOk result (λ e.
        (to_come cursor.old (F.contents tree.old)).why ≡ e.1) }
{
    'records: loop {
        match cursor.next(tree)? {
            Step::End(place, why) => return Ok((place.0, why)),
            Step::Record => {}
        }
        let xid = match cursor.current() {
            Some(current) => current.header().xid,
            None => return Err(LogFault::OutOfMemory),
        };
        match xids.push(xid) {
            Ok(()) => {}
            Err(_) => return Err(LogFault::OutOfMemory),
        }
    }
}

/// Adds the transactions of the records of a writer's log, as they are read from a tree that has it
/// in its segment files, and tells the place of the end and why.
fn written_xids<F: Tree>(
    alloc: Global,
    writer: &LogWriter,
    log: LogPath,
    start: Lsn,
    tree: &mut F,
    xids: &mut Vec<u32>,
) -> Result<(u64, Why), LogFault>
    requires room { length log.folder.parts ≤ 63 }
    ensures xids { IsTrue F.tells → start.0 ≡ writer.now.origin.start → IsPathOf log writer.now.origin
        → IsStored log (F.contents tree.old) start.0 writer.now.end (in_pages writer.now.bytes)
        → IfOk result (λ e. (records : List NewRecord) → Wrote writer.now records
        → xids.new.items ≡ xids.old.items ++ map (λ r. r.xid) records) }
    ensures place { IsTrue F.tells → start.0 ≡ writer.now.origin.start → IsPathOf log writer.now.origin
        → IsStored log (F.contents tree.old) start.0 writer.now.end (in_pages writer.now.bytes)
        → IfOk result (λ e. (records : List NewRecord) → Wrote writer.now records
        → e.0 ≡ place_at (bytes_of writer.now.origin.size) writer.now.end) }
    ensures why { IsTrue F.tells → start.0 ≡ writer.now.origin.start → IsPathOf log writer.now.origin
        → IsStored log (F.contents tree.old) start.0 writer.now.end (in_pages writer.now.bytes)
        → IfOk result (λ e. (records : List NewRecord) → Wrote writer.now records
        → e.1 ≡ end_why writer.now) }
{
    written_log_is_read_back();
    let mut cursor = match RecordCursor::at(alloc, log, start) {
        Ok(cursor) => cursor,
        Err(_) => return Err(LogFault::OutOfMemory),
    };
    xids_of(&mut cursor, tree, xids)
}

/// What is read back of a writer's log from a tree that has it.
fn read_back<R: AllocGlobal + Abort>(
    rt: &R,
    writer: &LogWriter,
    xids: &mut Vec<u32>,
) -> Result<(u64, Why), LogFault> {
    let mut tree = FailingTree::new(tree_with(rt, writer), FailPlan::Never);
    let log = log_path(rt, size(rt), one_timeline(rt), Some(SYSTEM));
    written_xids(rt.alloc(), writer, log, Lsn(FIRST), &mut tree, xids)
}

/// Whether of a log's records the transactions are given once, the end and why it ends.
fn are_given<R: AllocGlobal + Abort>(rt: &R) -> bool {
    let (writer, _) = log_of(rt, "0 10 50, 0 10 24");
    let mut xids = Vec::new(rt.alloc());
    let mut told = Told::new("Ok((1048696, ZeroLength)) [700, 701]");
    told.shows("", &read_back(rt, &writer, &mut xids));
    told.shows(" ", &xids.as_slice());
    told.is_all()
}

#[test]
fn what_a_writer_wrote_is_given_once(rt: HostRuntime) {
    assert!(rt; are_given(&rt));
}
