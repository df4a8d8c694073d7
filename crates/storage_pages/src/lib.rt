//! Redo on pages of sequences and of the visibility map.
#![tactic(auto)]

mod laws;
mod map;
mod sequence;

pub use laws::{a_bit_has_one_place, sequence_mask_law};
pub use map::redo_map;
pub use sequence::{makes_sequence, redo_sequence};
