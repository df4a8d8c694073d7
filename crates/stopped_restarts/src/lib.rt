//! However often a replay that can be started again is stopped, the run that is done leaves what one leaves.
#![tactic(auto)]

mod laws;

pub use laws::{first_is_unbegun, refused_as_one, run_is_one, stops_go_on};
