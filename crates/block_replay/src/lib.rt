//! What records do to the blocks that they reference, in a cluster's files.
#![tactic(auto)]

mod acts;
mod blocks;
mod changes;
mod faults;
mod pages;
mod redo;
mod skipped;

pub use blocks::replay_blocks;
pub use faults::RecordFault;
pub use skipped::Skipped;
