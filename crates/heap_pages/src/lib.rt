//! Redo of heap records that add tuples to a page, or change several: INSERT, MULTI_INSERT, UPDATE, PRUNE, VACUUM, FREEZE_PAGE and VISIBLE.
#![tactic(auto)]

mod freeze;
mod insert;
mod multi_insert;
mod new_body;
mod new_tuple;
mod prune;
mod update;
mod vacuum;
mod visible;

pub use freeze::redo_freeze;
pub use insert::redo_insert;
pub use multi_insert::{Inserter, redo_multi_insert};
pub use prune::redo_prune;
pub use update::{UpdateKind, redo_update, redo_update_new, redo_update_old};
pub use vacuum::redo_vacuum;
pub use visible::redo_visible;
