//! What a planned rewind changes, carried out.
#![tactic(auto)]

mod copying;
mod plan;
mod step;
mod stepping;

pub use copying::copy_range;
pub use marked_runs::PerformFault;
pub use plan::{FileBytes, Plan, perform};
pub use step::Step;
