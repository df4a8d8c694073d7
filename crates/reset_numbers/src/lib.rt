//! The numbers of a reset of the log: the options that fit, the control file after it, and the
//! segment that it writes.
#![tactic(auto)]

mod control;
mod names;
mod options;
mod segment;

pub use control::new_control;
pub use names::{is_segment, is_status};
pub use options::{ResetOptions, is_fit};
pub use segment::new_segment;
