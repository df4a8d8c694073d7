//! Where the log of a dump lies, and from where to where it is shown.
#![tactic(auto)]

mod bounds;
mod fault;
mod find;
mod laws;
mod listing;
mod segment;
mod taken;

pub use fault::FolderFault;
pub use find::{FoundLog, find_log};
pub use laws::{a_segment_is_found, pg_wal_is_taken, the_least_segment_is_told};
