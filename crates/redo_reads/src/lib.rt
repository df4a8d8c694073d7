//! What redo on pages reads of a record: a block's bytes and its number.
#![tactic(auto)]

mod given;

pub use given::{bytes_for, number_at};
