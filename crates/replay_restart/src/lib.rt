//! A replay that can be started again, whole.
#![tactic(auto)]

mod again;
mod anew;
mod ended;
mod fault;
mod outcome;
mod over;
mod restarting;
mod syncing;
mod taken;

pub use fault::RestartFault;
pub use outcome::Restarted;
pub use restarting::restart;
