//! Laws of the masks for the steps that redo of heap and B-tree records is made of.
#![tactic(auto)]

mod btree;
mod laws;
mod operations;
mod views;

pub use btree::{
    btree_add_respects, btree_delete_respects, btree_init_respects, btree_kind,
    btree_overwrite_respects, btree_shown, btree_special_respects, special_changes,
};
pub use laws::{
    add_respects, edit_respects, empty_line_respects, heap_shown, heap_steps_keep, prune_respects,
    trims_alike, tuple_changes, unshown,
};
pub use operations::steps_are_an_operation;
pub use views::{a_deletion_keeps_the_others, an_addition_keeps_the_others, pack_keeps_items};
