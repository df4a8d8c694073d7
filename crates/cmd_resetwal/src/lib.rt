//! pg_resetwal.
#![tactic(auto)]

mod causes;
mod resets;

pub use resets::resetwal;
