//! Times the CRC-32C of wal_base: the fast body beside the plain one, on the same bytes.
//!
//! Its one word says how many MiB each body sums; without it, 1. Standard output is the same in every run, and the
//! times go to standard error.
#![tactic(auto)]

mod bodies;
mod race;

use anyhow::{Context, Result};
use bodies::{fast_crc32c, filled};
use race::Race;
use std::alloc::Alloc;
use std::env;
use std::rt::Env;

/// How many MiB the first word asks for.
fn mebibytes<R: Env + Alloc>(rt: &R) -> Result<u32> {
    let mut words = env::args(rt)?;
    let _program = words.next();
    match words.next() {
        Some(word) => word.as_str().parse::<u32>().context("the number of MiB"),
        None => Ok(1),
    }
}

fn main(rt: HostRuntime) -> Result<()> {
    let count = mebibytes(&rt)?;
    let bytes = filled(rt.alloc())?;
    let len = bytes.len();
    let sum = fast_crc32c(&bytes);
    println!(rt; "crc32c of {len} bytes: {sum:08X}")?;
    let race = Race::run(&rt, &bytes, count)?;
    let agree = if race.agree { "agree" } else { "differ" };
    println!(rt; "the plain and the fast body {agree}")?;
    eprintln!(rt; "{race}")?;
    Ok(())
}
