//! Redo of B-tree records can't tell pages with equal masks, as a law without code.
#![tactic(auto)]

mod laws;

pub use laws::{btree_mask_law, posting_mask_law};
