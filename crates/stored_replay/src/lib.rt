//! A replay that can be started again, as the mark at a cluster's root tells of it.
#![tactic(auto)]

mod fault;
mod marks;
mod shadows;
mod stored;

pub use fault::StoredReplayFault;
pub use shadows::{shadow_folder, shadow_path};
pub use stored::{StoredReplay, stored_replay};
