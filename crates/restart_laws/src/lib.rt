//! A replay that was stopped, and begun again, ends as it would have.
#![tactic(auto)]

mod laws;

pub use laws::{
    again_ends_as_first, back_is_stopped, begun_late_is_begun, ended_is_done, left_is_one_run,
    may_begin_again, replay_is_beside, replaying_is_stopped, restarted_is_done,
    restarted_is_one_run, starts_are_the_same, stopped_is_left, stopped_is_taken,
    stopped_keeps_mark, stops_are_one,
};
