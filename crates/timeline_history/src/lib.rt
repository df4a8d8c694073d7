//! Histories of timelines, and where two of them part.
#![tactic(auto)]

mod ancestor;
mod fault;
mod history;
mod laws;
mod line;
mod parting;
mod pieces;
mod reading;

pub use ancestor::{Ancestor, Divergence};
pub use fault::HistoryFault;
pub use history::{History, first_history};
pub use laws::{
    entries_are_named, files_have_one_first_fault, files_tell_histories,
    histories_part_at_the_fork, texts_are_their_lines,
};
pub use parting::divergence;
pub use reading::read_history;
