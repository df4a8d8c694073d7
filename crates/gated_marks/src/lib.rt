//! A mark that holds a text behind a head, and in the head a gate that is opened last.
#![tactic(auto)]

mod begin;
mod head;
mod laws;
mod steps;

pub use begin::begin_gated;
pub use head::lay_head;
pub use laws::{gated_laws, mark_laws};
pub use steps::{lay_text, open_gate};
