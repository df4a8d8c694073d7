//! That a rewind that was broken off, done again from what a stop left, ends as the first run would
//! have, as laws without code.
#![tactic(auto)]

mod laws;
mod run_laws;

pub use laws::{
    resumed_stops_are_between, resumes_are_not_refused, resumes_find_what_they_read,
    resumes_leave_the_same, stops_are_between,
};
pub use run_laws::{
    ends_stay_between, marked_plans_are_sound, resumes_are_on_the_same_paths, resumes_stay_between,
    runs_stay_between, stopped_rewinds_end_the_same, synced_runs_stand, whole_resumes,
};
