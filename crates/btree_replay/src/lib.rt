//! Redo of B-tree records on pages: what a record of Btree does to the page of a block of it.
#![tactic(auto)]

mod delete;
mod insert;
mod meta;
mod new_root;
mod operation;
mod redo;
mod split;

pub use operation::{acts, is_fresh};
pub use redo::redo_btree;
