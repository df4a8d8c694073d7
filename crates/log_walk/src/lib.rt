//! The walks over the log of a rewind's target: where it ends, the last checkpoint that both
//! clusters have, and the blocks that its records touch from there on.
#![tactic(auto)]

mod back;
mod checkpoint;
mod end;
mod fault;
mod first;
mod laws;
mod touch;

pub use back::common_checkpoint;
pub use checkpoint::CommonCheckpoint;
pub use end::end_of_target;
pub use fault::LogWalkFault;
pub use laws::{checkpoint_is_common, walk_goes_on};
pub use touch::touch_log;
