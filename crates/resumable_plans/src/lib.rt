//! That the plans of rewinds can be resumed, as laws without code.
#![tactic(auto)]

mod laws;

pub use laws::{
    marked_stops_are_between, plans_are_in_groups, plans_are_sound, resumes_leave_the_rewound_tree,
    resumes_stay_in_the_target, stopped_plans_are_resumed,
};
