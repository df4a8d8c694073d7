//! Runs worked cases of the commands: texts, each a tree of files, words, and what they have to do.
//!
//! Its words name the files of the texts, which it takes in turn. Standard output has a line for each, with how many cases
//! it has, and behind it a line for each difference from what is wanted. A file that can't be read, or has a line that is
//! none of a case, ends it with status 1.
#![tactic(auto)]

mod driver;

use anyhow::Result;
use driver::Scene;
use std::io::Print;
use std::rt::Files;
use std::{env, fs};

// Runs the cases of a file.
fn run_file<R: Files + Print + AllocGlobal>(rt: &R, scene: &mut Scene, file: &str) -> Result<()> {
    let text = fs::read_to_string(rt, file)?;
    scene.take_text(rt.alloc(), &text)?;
    let (cases, told) = scene.end(rt.alloc())?;
    println!(rt; "{file}: {cases} cases")?;
    print!(rt; "{told}")?;
    Ok(())
}

fn main(rt: HostRuntime) -> Result<()> {
    let mut scene = Scene::new(rt.alloc());
    for file in env::args(&rt)?.skip(1) {
        if let Err(fault) = run_file(&rt, &mut scene, &file) {
            return Err(fault.context(file));
        }
    }
    Ok(())
}
