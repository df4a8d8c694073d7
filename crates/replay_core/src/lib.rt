//! The replay of a cluster's log.
#![tactic(auto)]

mod closing;
mod faults;
mod laws;
mod marked;
mod outcome;
mod paths;
mod plain;
mod replaying;
mod running;

pub use faults::of_file;
pub use laws::mark_laws;
pub use marked::replay_marked;
pub use outcome::Replayed;
pub use plain::replay;
pub use replay_start::ReplayFault;
pub use replaying::replay_with;
