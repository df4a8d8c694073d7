//! Clusters that are alike but for the pages of their relations, and what records do to their files.
#![tactic(auto)]

mod effects;

pub use effects::effects_alike;
