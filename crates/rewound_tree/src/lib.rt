//! What a rewind leaves, path by path, and the whole copy that it is held against: definitions, with
//! laws of them and no code.
#![tactic(auto)]

mod laws;

pub use laws::{blocks_are_of_one_side, mixed_files_are_as_long};
