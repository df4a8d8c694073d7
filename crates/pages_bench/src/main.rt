//! Times the page cursor of wal_pages over a segment in memory, beside a plain copy and the CRC-32C of the same bytes.
//!
//! Its one word says how often the segment of 1 MiB is gone through in each way; without it, once. Standard output is
//! the same in every run, and the times go to standard error.
#![tactic(auto)]

mod passes;
mod race;
mod segment;

use anyhow::{Context, Result};
use passes::{crc_pass, page_pass};
use race::Race;
use segment::SegmentLog;
use std::alloc::Alloc;
use std::env;
use std::rt::Env;

/// How often the first word asks for.
fn rounds<R: Env + Alloc>(rt: &R) -> Result<u32> {
    let mut words = env::args(rt)?;
    let _program = words.next();
    match words.next() {
        Some(word) => word.as_str().parse::<u32>().context("the number of rounds"),
        None => Ok(1),
    }
}

fn main(rt: HostRuntime) -> Result<()> {
    let count = rounds(&rt)?;
    let mut log = SegmentLog::new(rt.alloc())?;
    let len = log.bytes.len();
    let sum = crc_pass(&log.bytes);
    println!(rt; "a segment of {len} bytes, crc32c {sum:08X}")?;
    let read = page_pass(&mut log.cursor, &mut log.tree)?;
    let agree = if read == sum { "agree" } else { "differ" };
    println!(rt; "the pages read and the segment {agree}")?;
    let race = Race::run(&rt, &mut log, count)?;
    eprintln!(rt; "{race}")?;
    Ok(())
}
