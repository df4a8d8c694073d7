//! What records touch, one by one and by walks over a log: rows of texts.
mod bodies;
mod known;
mod walk_control;
mod walk_logs;
mod walk_rows;
mod walks;

use crate::one_record::cursor_over;
use crate::rows::{Rows, check};
use crate::texts::{byte, cut_at, first_number, number};
use crate::told::Told;
use block_refs::{RelName, split_record};
use bodies::body_of;
use std::process::Abort;
use touched_blocks::{TouchFault, Touched};
use wal_records::RecordCursor;
use walks::walked;

/// A cursor that has read a record, by its manager, its `info` and its body.
fn cursor_of<R: AllocGlobal + Abort>(rt: &R, words: &str) -> RecordCursor {
    let (manager, behind) = cut_at(words, " ");
    let (info, body) = cut_at(behind, " ");
    cursor_over(rt, byte(rt, manager), byte(rt, info), &body_of(rt, body))
}

/// Adds a record, and answers what refuses it.
fn add<R: AllocGlobal + Abort>(rt: &R, set: &mut Touched, words: &str) -> Result<(), TouchFault> {
    let cursor = cursor_of(rt, words);
    let rec = cursor.current().expect(rt, "no record");
    let parts = split_record(rec).expect(rt, "no parts");
    set.add_record(rec, &parts)
}

/// Tells how many chunks, cuts and databases a set has.
fn counted(told: &mut Told<'_>, set: &Touched) {
    told.shows("", &set.chunk_count());
    told.shows(" ", &set.cut_count());
    told.shows(" ", &set.database_count());
}

/// Adds records, and tells what refused the first that isn't known, or what the set then counts.
fn added<R: AllocGlobal + Abort>(rt: &R, told: &mut Told<'_>, set: &mut Touched, records: &str) {
    for words in records.split(", ") {
        if let Err(fault) = add(rt, set, words) {
            return told.shows("", &fault);
        }
    }
    counted(told, set);
}

/// Whether a set has a block, or lacks it, as the first word says: then its database, relation and number.
fn is_so<R: Abort>(rt: &R, set: &Touched, fact: &str) -> bool {
    let (verb, behind) = cut_at(fact, " ");
    let (database, behind) = first_number(rt, behind);
    let (relation, block) = first_number(rt, behind);
    let rel = RelName {
        space: 1663,
        database,
        relation,
    };
    let has = set.has(rel, number(rt, block));
    match verb {
        "has" => has,
        "lacks" => !has,
        _ => panic!(rt; "no such fact"),
    }
}

/// Whether all of some facts are so, if there are any.
fn are_so<R: Abort>(rt: &R, set: &Touched, facts: &str) -> bool {
    for fact in facts.split(", ") {
        if !fact.is_empty() && !is_so(rt, set, fact) {
            return false;
        }
    }
    true
}

/// Tells what is told of a row before its sign of equality, and puts what is touched into a set.
fn tell<R: AllocGlobal + Abort>(rt: &R, told: &mut Told<'_>, set: &mut Touched, row: &str) {
    let (verb, words) = cut_at(row, " ");
    match verb {
        "add" => added(rt, told, set, words),
        _ => walked(rt, told, set, verb, words),
    }
}

/// Whether a row is as it says: what is told, and the facts.
pub fn is_row<R: AllocGlobal + Abort>(rt: &R, row: &str, meant: &str) -> bool {
    let (answer, facts) = cut_at(meant, ": ");
    let mut told = Told::new(answer);
    let mut set = Touched::new(rt.alloc());
    tell(rt, &mut told, &mut set, row);
    told.is_all() && are_so(rt, &set, facts)
}

#[test]
fn records_and_walks_touch_what_the_log_names(rt: HostRuntime) {
    check(
        &rt,
        Rows::Touched,
        &[
            known::KNOWN,
            known::UNKNOWN,
            walk_rows::ENDS,
            walk_rows::COMMON,
            walk_rows::REFUSED,
            walk_rows::TOUCHED,
            walk_rows::FAILING,
        ],
    );
}
