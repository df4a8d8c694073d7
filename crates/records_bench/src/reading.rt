//! The log as it is read back.

use crate::supply::Supply;
use crate::times::micros_since;
use anyhow::Result;
use cluster_tree::Tree;
use std::fmt;
use std::rt::Clock;
use std::time::Instant;
use wal_base::Lsn;
use wal_records::{LogFault, RecordCursor, Step, Why};

/// By which call the records are read.
#[derive(Clone, Copy)]
pub enum Way {
    /// `next`, which reads the page of each record from the tree.
    Anew,
    /// `next_unchanged`, which reads no page again.
    Unchanged,
}

/// What was read.
#[derive(Clone, Copy, Debug)]
pub struct ReadLog {
    /// How many records were read.
    pub records: u32,
    /// How many of them are other than what was appended.
    pub others: u32,
    /// Where the log ends.
    pub place: Lsn,
    /// Why it ends there.
    pub why: Why,
}

impl fmt::Display for ReadLog {
    fn fmt<W: fmt::Write>(&self, f: &mut fmt::Formatter<W>) -> fmt::Result {
        let (records, others, place, why) = (self.records, self.others, self.place, self.why);
        write!(
            f,
            "{records} records read, {others} of them others, up to {place}: {why:?}"
        )
    }
}

/// Whether the record that a cursor lends is the supply's of a number.
fn is_supplied(cursor: &RecordCursor, supply: &Supply, number: u32) -> bool {
    match cursor.current() {
        Some(read) => supply.record(number).is(read),
        None => false,
    }
}

/// Reads the next record in a way.
fn step<F: Tree>(cursor: &mut RecordCursor, tree: &mut F, way: Way) -> Result<Step, LogFault> {
    match way {
        Way::Anew => cursor.next(tree),
        Way::Unchanged => cursor.next_unchanged(tree),
    }
}

/// Reads the log up to its end in a way, and compares each record with what was appended.
fn read_log<F: Tree>(
    cursor: &mut RecordCursor,
    tree: &mut F,
    supply: &Supply,
    way: Way,
) -> Result<ReadLog> {
    let mut others = 0u32;
    for number in 0..u32::MAX {
        match step(cursor, tree, way)? {
            Step::Record => {}
            Step::End(place, why) => {
                return Ok(ReadLog {
                    records: number,
                    others,
                    place,
                    why,
                });
            }
        }
        if !is_supplied(cursor, supply, number) {
            others = others.saturating_add(1);
        }
    }
    anyhow::bail!("the log is too long")
}

/// What a cursor reads in a way, and in how many microseconds.
pub fn time_reading<F: Tree>(
    clock: &impl Clock,
    mut cursor: RecordCursor,
    tree: &mut F,
    supply: &Supply,
    way: Way,
) -> Result<(ReadLog, u64)> {
    let start = Instant::now(clock)?;
    let read = read_log(&mut cursor, tree, supply, way)?;
    let micros = micros_since(clock, start)?;
    Ok((read, micros))
}
