//! Redo of B-tree records that have to do with posting lists: index tuples with several tids.
#![tactic(auto)]

mod dedup;
mod form;
mod insert;
mod operation;
mod place;
mod records;
mod redo;
mod shorten;
mod split;
mod swap;
mod tuple;
mod updates;

pub use operation::is_posting;
pub use redo::redo_posting;
