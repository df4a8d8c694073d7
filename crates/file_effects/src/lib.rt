//! What a record does to a cluster's files beside the blocks that it references.
#![tactic(auto)]

mod acting;
mod bits;
mod clearing;
mod effect;
mod ending;
mod laws;
mod map_clears;
mod multis;

pub use acting::act_on_files;
pub use laws::replayed_laws;
