//! What a replay that is started again brings back first: the folders and files that its mark lists.
#![tactic(auto)]

mod filling;
mod freeing;
mod listing;
mod loose;
mod order;
mod pages;
mod restoring;

pub use loose::{loose_laws, loose_line};
pub use restoring::restore_areas;
