//! A tree of files in which the file at one path isn't seen.
#![tactic(auto)]

mod answers;
mod names;
mod without;

pub use without::WithoutFile;
