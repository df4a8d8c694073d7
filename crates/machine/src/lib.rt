//! The machine's files and streams, as the traits `Tree` and `Sink` have them.
#![tactic(auto)]

mod changed;
mod dir_tree;
mod entry;
mod kept;
mod listing;
mod opened;
mod removing;
mod seen;
mod std_sink;

pub use dir_tree::DirTree;
pub use std_sink::StdSink;
