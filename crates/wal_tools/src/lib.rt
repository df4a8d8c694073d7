//! The commands, from their words to their exit.
#![tactic(auto)]

mod commanded;
mod ending;
mod program;
mod words;

pub use ending::finish;
pub use program::{run, run_with};
