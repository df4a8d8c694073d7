//! What a record does to a block, by the rules of its manager.
#![tactic(auto)]

mod gone;
mod laws;

pub use gone::is_gone;
pub use laws::{a_slot_joins, effects_meet, managers_converge, managers_without_rules};
