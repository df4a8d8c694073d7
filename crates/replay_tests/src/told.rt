//! What differs from what is wanted.
use std::alloc::{AllocError, Global};

/// How many rows ran, and what differed, a line for each difference.
#[derive(Drop)]
pub(crate) struct Told {
    /// The line of the row that runs, from 1.
    pub(crate) line: usize,
    pub(crate) rows: u64,
    pub(crate) text: String,
}

impl Told {
    /// No row ran.
    pub(crate) fn new(alloc: Global) -> Told {
        Told {
            line: 0,
            rows: 0,
            text: String::new(alloc),
        }
    }

    /// Tells what came out, if it isn't what is wanted.
    pub(crate) fn compare(&mut self, found: &str, wanted: &str) -> Result<(), AllocError> {
        if found == wanted {
            return Ok(());
        }
        let line = self.line;
        writeln!(self.text, "line {line}: '{found}' in place of '{wanted}'")
    }

    /// Tells a fact that isn't so.
    pub(crate) fn tell_not_so(&mut self, fact: &str) -> Result<(), AllocError> {
        let line = self.line;
        writeln!(self.text, "line {line}: not so: {fact}")
    }
}
