//! That what a stopped rewind left is read again from its mark and can be done again, as laws without code.
#![tactic(auto)]

mod laws;

pub use laws::{
    stopped_resumes_are_resumed, stopped_rewinds_are_resumed, stopped_rewinds_are_stored,
    stored_plans_are_sound,
};
