//! The mark of a replay that can be started again, and its copies of files: laid before its first
//! change, and removed at its end.
#![tactic(auto)]

mod begin;
mod copying;
mod end;
mod laws;
mod laying;
mod marking;

pub use begin::begin_copies;
pub use end::{clear_copies, end_copies};
pub use laws::mark_laws;
