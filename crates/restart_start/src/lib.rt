//! What a replay that can be started again begins from: checked before anything is changed.
#![tactic(auto)]

mod fault;
mod gather;
mod starting;

pub use fault::RestartFault;
pub use gather::first_changed;
pub use starting::{Beginning, start_again};
