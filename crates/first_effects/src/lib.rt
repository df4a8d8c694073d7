//! The least block of a main fork whose first effect in a log is a change of the page that stood
//! there.
#![tactic(auto)]

mod first;
mod gone;
mod laws;
mod taken;

pub use first::FirstEffects;
pub use laws::{logs_without_changes_begin_anew, unchanged_begin_anew};
