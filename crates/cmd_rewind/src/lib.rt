//! pg_rewind.
#![tactic(auto)]

mod laws;
mod lines;
mod makes;
mod marks;
mod reports;
mod rewinds;
mod tasks;

pub use laws::marks_are_refused;
pub use lines::{Lines, diverged, rewinding};
pub use marks::OwnMark;
pub use reports::{all_done, report};
pub use rewinds::rewind;
