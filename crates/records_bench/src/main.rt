//! Times the writer and the cursor of wal_records: a log is written record by record, put into the segment files of a tree
//! in memory, and read back in two ways; beside the CRC-32C of its bytes.
//!
//! Its one word says how many MiB the log has; without it, two. Standard output is the same in every run with that word,
//! and the times go to standard error.
#![tactic(auto)]

mod reading;
mod store;
mod supply;
mod times;
mod writing;

use anyhow::{Context, Result};
use reading::{Way, time_reading};
use std::alloc::Alloc;
use std::env;
use std::rt::Env;
use std::time::Instant;
use store::{cursor_of, tree_of};
use supply::Supply;
use times::{Pace, micros_since};
use wal_base::{Crc32c, Lsn};
use writing::{START, write_log};

/// How many MiB the first word asks for.
fn mebibytes<R: Env + Alloc>(rt: &R) -> Result<u32> {
    let mut words = env::args(rt)?;
    let _program = words.next();
    match words.next() {
        Some(word) => word.as_str().parse::<u32>().context("the number of MiB"),
        None => Ok(2),
    }
}

fn main(rt: HostRuntime) -> Result<()> {
    let size = u64::from(mebibytes(&rt)?) * 0x10_0000;
    let supply = Supply::new(rt.alloc())?;

    let start = Instant::now(&rt)?;
    let log = write_log(rt.alloc(), &supply, size)?;
    let writing = micros_since(&rt, start)?;
    let (bytes, end) = (log.writer.bytes(), log.writer.position());

    let start = Instant::now(&rt)?;
    let mut crc = Crc32c::new();
    crc.add(bytes);
    let summing = micros_since(&rt, start)?;
    let (sum, len, records, begin) = (crc.value(), bytes.len(), log.records, Lsn(START));
    println!(rt; "{records} records from {begin} to {end}, in {len} bytes of crc32c {sum:08X}")?;

    let mut tree = tree_of(rt.alloc(), bytes)?;
    let cursor = cursor_of(rt.alloc())?;
    let (read, reading) = time_reading(&rt, cursor, &mut tree, &supply, Way::Anew)?;
    println!(rt; "{read}")?;
    let cursor = cursor_of(rt.alloc())?;
    let (again, unchanged) = time_reading(&rt, cursor, &mut tree, &supply, Way::Unchanged)?;
    println!(rt; "unchanged: {again}")?;

    let pace = Pace {
        len: len as u64,
        writing,
        summing,
        reading,
        unchanged,
    };
    eprintln!(rt; "{pace}")?;
    Ok(())
}
