// Records of a log, as texts of what a cursor over them gives.
ghost use Rattle.std.specs.Prelude.{◌≡◌, None};
ghost use Rattle.cluster_tree.specs.Contents.{Contents};
ghost use Rattle.wal_records.specs.Cursor.{Knows};

use crate::logs::{FIRST, SYSTEM, log_path, one_timeline, size, tree_of, write};
use crate::record_rows::*;
use crate::rows::{Rows, check, check_row};
use crate::texts::{bytes_of, cut_at, plan_of, position};
use crate::told::Told;
use crate::written::log_tree;
use memory_tree::{FailPlan, FailingTree, MemoryTree};
use std::process::Abort;
use wal_base::{Lsn, SegSize};
use wal_records::{LogFault, Record, RecordCursor, Step};

/// A cursor over the log of timeline 1.
pub fn cursor_at<R: AllocGlobal + Abort>(rt: &R, size: SegSize, start: u64) -> RecordCursor
    ensures begun { result.ended ≡ None }
    ensures size { result.log.size ≡ size }
    ensures knows { (contents : Contents) → Knows result contents }
{
    let log = log_path(rt, size, one_timeline(rt), Some(SYSTEM));
    RecordCursor::at(rt.alloc(), log, Lsn(start)).expect(rt, "no memory")
}

/// By which call the records are read.
#[derive(Clone, Copy)]
enum Way {
    /// `next`, which reads the page of each record from the tree.
    Anew,
    /// `next_unchanged`, which reads most records from the page that is held.
    Unchanged,
}

/// Tells where the record starts and ends that a cursor lends, or `none`.
fn lent(told: &mut Told<'_>, cursor: &RecordCursor) {
    let Some(current) = cursor.current() else {
        return told.text("none");
    };
    told.says("", &current.start());
    told.says(" ", &current.end());
}

/// The next step of a cursor, in a way.
fn step(cursor: &mut RecordCursor, tree: &mut MemoryTree, way: Way) -> Result<Step, LogFault> {
    match way {
        Way::Anew => cursor.next(tree),
        Way::Unchanged => cursor.next_unchanged(tree),
    }
}

/// Whether a cursor answered as it had to, and what it lends: where a record starts and ends, or where the log ends and
/// why, or that a read failed, and then nothing is lent.
fn is_told(cursor: &RecordCursor, answer: Result<Step, LogFault>, wanted: &str) -> bool {
    let mut told = Told::new(wanted);
    match answer {
        Ok(Step::Record) => lent(&mut told, cursor),
        Ok(Step::End(place, why)) => {
            told.says("", &place);
            told.shows(" ", &why);
        }
        Err(LogFault::ReadFault) => told.text("failed"),
        Err(_) => told.text("another answer"),
    }
    told.is_all() && cursor.current().is_some() == (answer == Ok(Step::Record))
}

/// Whether of up to nine records that a cursor gives the last is the one that is meant, if there is one, and then the
/// end.
fn are_read(
    cursor: &mut RecordCursor,
    tree: &mut MemoryTree,
    way: Way,
    meant: (&str, &str),
) -> bool {
    let (last, end) = meant;
    let mut is_last = last == "none";
    for _ in 0..10 {
        let answer = step(cursor, tree, way);
        if answer != Ok(Step::Record) {
            return is_last && is_told(cursor, answer, end);
        }
        is_last = is_told(cursor, answer, last);
    }
    false
}

/// Whether the last record and the end that are read in a way are those that are meant.
fn is_read_by<R: AllocGlobal + Abort>(
    rt: &R,
    tree: &mut MemoryTree,
    start: u64,
    way: Way,
    meant: (&str, &str),
) -> bool {
    let mut cursor = cursor_at(rt, size(rt), start);
    are_read(&mut cursor, tree, way, meant)
}

/// Whether a log is read so in both ways.
pub fn is_read<R: AllocGlobal + Abort>(
    rt: &R,
    tree: &mut MemoryTree,
    start: u64,
    meant: (&str, &str),
) -> bool {
    is_read_by(rt, tree, start, Way::Anew, meant)
        && is_read_by(rt, tree, start, Way::Unchanged, meant)
}

/// The log of a row, with its bytes put over it.
fn put_over<R: AllocGlobal + Abort>(rt: &R, log: &str, at: &str, bytes: &str) -> MemoryTree {
    let mut tree = tree_of(rt, log);
    write(rt, &mut tree, position(rt, at), &bytes_of(rt, bytes));
    tree
}

/// Whether a row is read as it says in both ways: `AT BYTES START = LAST, PLACE WHY`.
pub fn is_row<R: AllocGlobal + Abort>(rt: &R, log: &str, given: &str, meant: &str) -> bool {
    let (at, behind) = cut_at(given, " ");
    let (bytes, start) = cut_at(behind, " ");
    let mut tree = put_over(rt, log, at, bytes);
    is_read(rt, &mut tree, position(rt, start), cut_at(meant, ", "))
}

#[test]
fn the_first_test_that_fails_is_told(rt: HostRuntime) {
    check(&rt, Rows::Records(TWO), &[OF_FIRST, OF_SECOND]);
    check(&rt, Rows::Records(OVER), &[OF_PAGE]);
    check(&rt, Rows::Records(BODY_OVER), &[OF_BODY]);
    check(&rt, Rows::Records(DROPPED), &[OF_DROPPED]);
    check(&rt, Rows::Records(TO_THE_END), &[OF_PAGE_END]);
    check(&rt, Rows::Records(TO_2_64), &[OF_2_64]);
}

/// A log with the stored checkpoint.
fn stored<R: AllocGlobal + Abort>(rt: &R) -> MemoryTree {
    let mut tree = tree_of(rt, "file 0/100000 8192, page 0/100000 2 0");
    write(rt, &mut tree, 0x10_0028, &CHECKPOINT);
    tree
}

/// Whether a record is the stored one: where it starts and ends, where its bytes end, its length, its sum and its body.
fn is_stored(current: &Record, size: SegSize) -> bool {
    let header = current.header();
    let mut told = Told::new("0/100028 0/1000A0 0/10009A 114");
    told.says("", &current.start());
    told.says(" ", &current.end());
    told.says(" ", &current.behind(size).unwrap_or(Lsn(0)));
    told.shows(" ", &header.total);
    told.is_all() && header.crc == 0xAE66_BC71 && current.body() == &CHECKPOINT[24..]
}

/// Whether the stored checkpoint is read, by a cursor that lends nothing before.
fn is_stored_read<R: AllocGlobal + Abort>(rt: &R) -> bool {
    let size = size(rt);
    let mut cursor = cursor_at(rt, size, FIRST);
    let is_lent = cursor.current().is_some();
    let _step = cursor.next(&mut stored(rt)).expect(rt, "no record");
    let current = cursor.current().expect(rt, "no record");
    !is_lent && is_stored(current, size)
}

#[test]
fn a_stored_checkpoint_is_read(rt: HostRuntime) {
    assert!(rt; is_stored_read(&rt));
}

/// Whether an act comes out as it has to: `next: ANSWER`, `unchanged: ANSWER`, `alone AT: ANSWER` or `go AT`.
fn is_done<R: Abort>(rt: &R, cursor: &mut RecordCursor, tree: &mut FailingTree, act: &str) -> bool {
    let (call, wanted) = cut_at(act, ": ");
    let (verb, at) = cut_at(call, " ");
    let answer = match verb {
        "next" => cursor.next(tree),
        "unchanged" => cursor.next_unchanged(tree),
        "alone" => cursor.read_alone(tree, Lsn(position(rt, at))),
        "go" => {
            cursor.go_to(Lsn(position(rt, at)));
            return cursor.current().is_none();
        }
        _ => panic!(rt; "no such act"),
    };
    is_told(cursor, answer, wanted)
}

/// The first act that comes out otherwise, if there is one.
fn first_other_act<'a, R: Abort>(
    rt: &R,
    cursor: &mut RecordCursor,
    tree: &mut FailingTree,
    acts: &'a str,
) -> Option<&'a str> {
    for act in acts.split("; ") {
        if !is_done(rt, cursor, tree, act) {
            return Some(act);
        }
    }
    None
}

/// The record behind 0/101FF8 was dropped, 0/102000 is a page's start, and 0/102048 the end of the
/// log. `next_unchanged` then goes on where it would have.
const BY_ITSELF: &str = "\
alone 0/102018: 0/102018 0/102048; alone 0/101F00: 0/101F00 0/101FF8; alone 0/101FF8: 0/101FF8 \
    Continuation; alone 0/102000: 0/102000 Place; alone 0/102048: 0/102048 ZeroLength; unchanged: \
    0/101F00 0/101FF8; unchanged: 0/102018 0/102048; go 0/102000; next: 0/102018 0/102048; go 0/100000";

/// Records of these lengths, which reads fail, and what `next_unchanged` gives. Three records stand
/// on one page, whose second read would fail; the second page of a record can't be read once.
const FAULTS: &str = "\
0 10 50, 0 10 24, 0 10 30 | at 2 | unchanged: 0/100028 0/100060; unchanged: 0/100060 0/100078; \
    unchanged: 0/100078 0/100098; unchanged: 0/100098 ZeroLength
0 10 8144, 0 10 114 | at 2 | unchanged: 0/100028 0/101FF8; unchanged: failed; unchanged: 0/101FF8 \
    0/102088
0 10 8144, 0 10 114 | at 1 | unchanged: failed; unchanged: 0/100028 0/101FF8; unchanged: 0/101FF8 \
    0/102088";

/// The first act of a row that comes out otherwise, on a log of records of these lengths.
pub fn first_other<'a, R: AllocGlobal + Abort>(rt: &R, row: &'a str) -> Option<&'a str> {
    let (log, behind) = cut_at(row, " | ");
    let (plan, acts) = cut_at(behind, " | ");
    let mut tree = FailingTree::new(log_tree(rt, log), plan_of(rt, plan));
    let mut cursor = cursor_at(rt, size(rt), FIRST);
    first_other_act(rt, &mut cursor, &mut tree, acts)
}

#[test]
fn after_a_fault_the_same_place_is_tried(rt: HostRuntime) {
    check(&rt, Rows::RecordActs, &[FAULTS]);
}

/// The first act that comes out otherwise on the log with a record that was dropped.
fn first_other_by_itself<R: AllocGlobal + Abort>(rt: &R) -> Option<&'static str> {
    let mut tree = FailingTree::new(tree_of(rt, DROPPED), FailPlan::Never);
    let mut cursor = cursor_at(rt, size(rt), 0x10_1F00);
    first_other_act(rt, &mut cursor, &mut tree, BY_ITSELF)
}

#[test]
fn the_record_at_a_place_is_read_by_itself(rt: HostRuntime) {
    check_row(&rt, BY_ITSELF, first_other_by_itself(&rt));
}
