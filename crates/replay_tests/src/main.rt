//! Runs rows of replay, from the profile to the files of a cluster: texts, each line a call and what has to come out.
//!
//! Its words name the files of the texts, which it takes in turn. Standard output has a line for each, with how many rows
//! it has, and behind it a line for each difference from what is wanted. A file that can't be read, or has a row that
//! can't be run, ends it with status 1.
#![tactic(auto)]

mod effects;
mod fault;
mod files;
mod firsts;
mod logs;
mod pages;
mod profile;
mod records;
mod redo;
mod rows;
mod texts;
mod told;
mod trees;

use anyhow::Result;
use rows::run_text;
use std::io::Print;
use std::rt::Files;
use std::{env, fs};

// Runs the rows of a file.
fn run_file<R: Files + Print + AllocGlobal>(rt: &R, file: &str) -> Result<()> {
    let text = fs::read_to_string(rt, file)?;
    let told = run_text(rt.alloc(), &text)?;
    let (rows, differences) = (told.rows, told.text);
    println!(rt; "{file}: {rows} rows")?;
    print!(rt; "{differences}")?;
    Ok(())
}

fn main(rt: HostRuntime) -> Result<()> {
    for file in env::args(&rt)?.skip(1) {
        if let Err(fault) = run_file(&rt, &file) {
            return Err(fault.context(file));
        }
    }
    Ok(())
}
