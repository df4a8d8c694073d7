//! A rewind that was broken off, done again by the plan that was stored.
#![tactic(auto)]

mod changing;
mod closing;
mod faults;
mod looks;
mod performing;
mod stepping;

pub use faults::StoredPerformFault;
pub use performing::perform_stored;
