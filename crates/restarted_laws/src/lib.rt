//! A log that is replayed again over a cluster in which a replay of it was stopped.
#![tactic(auto)]

mod files;
mod records;
mod replays;
mod standing;
mod unchanged;

pub use files::{records_end_with_same_files, replays_end_with_same_files};
pub use records::records_end_the_same;
pub use replays::replays_end_the_same;
pub use standing::unchanged_blocks_stand;
pub use unchanged::unchanged_first_are_again;
