//! Replay of one log over two clusters that are alike but for the pages of their relations.
#![tactic(auto)]

mod converging;
mod kinds;
mod records;
mod replays;
mod same;
mod starts;
mod unlogged;

pub use converging::records_converge;
pub use kinds::records_find_kinds;
pub use records::records_alike;
pub use replays::{both_replay, convergence};
pub use same::alike_are_same;
pub use starts::start_alike;
pub use unlogged::{init_forks_go_whole, unlogged_blocks_converge};
