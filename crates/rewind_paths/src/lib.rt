//! That every change of a rewind is of its target, as a law without code.
#![tactic(auto)]

mod laws;

pub use laws::rewind_is_of_target;
