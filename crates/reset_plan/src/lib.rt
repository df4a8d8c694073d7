//! What a reset of a log is, and all that is read and made ready for it before its first change.
#![tactic(auto)]

mod fault;
mod page;
mod plan;
mod preparing;
mod removals;
mod roots;

pub use fault::ResetFault;
pub use plan::{Body, Files, Plan, Prepared};
pub use preparing::prepare;
pub use reset_numbers::{ResetOptions, is_fit};
