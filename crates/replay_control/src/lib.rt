//! What records of the log say of the control file, and the control file that a replay leaves.
#![tactic(auto)]

mod following;
mod said;

pub use following::{control_after, control_left};
pub use said::checkpoint_said;
