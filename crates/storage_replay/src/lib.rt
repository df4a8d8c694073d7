//! Replay on the files of relations: lengths, blocks, truncations, creations and drops.
#![tactic(auto)]

mod blocks;
mod cutting;
mod files;
mod found;
mod lengths;
mod map_edit;
mod relations;
mod sweep;
mod visibility;

pub use blocks::{read_block, write_block};
pub use files::Files;
pub use found::Found;
pub use lengths::length;
pub use relations::{create, drop_relation, truncate};
pub use visibility::map_bits;
