//! What a replay leaves of the bytes of files that the pages of their blocks don't tell.
#![tactic(auto)]

mod records;
mod same;
mod whole;

pub use records::{records_keep_blocks, records_keep_versions};
pub use same::alike_have_same_files;
pub use whole::{alike_have_whole_blocks, walked_have_whole_blocks};
