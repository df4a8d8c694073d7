//! What is brought back of a cluster in which a replay was stopped.
#![tactic(auto)]

mod laws;

pub use laws::{
    back_is_alike, back_keeps_blocks, laid_is_begun_from, laid_is_left, lists_are_closed,
    restored_is_back,
};
