//! Redo of B-tree records on one page: what each operation makes of it.
#![tactic(auto)]

mod delete;
mod insert;
mod items;
mod meta;
mod new_root;
mod page;
mod restore;
mod special;
mod split_left;
mod split_right;

pub use delete::redo_delete;
pub use insert::redo_insert;
pub use items::{item_of, put_last, put_lines_of};
pub use meta::redo_meta;
pub use new_root::{put_root, redo_new_root};
pub use page::require_btree;
pub use special::{put_without_garbage, redo_neighbour, redo_settle};
pub use split_left::{begin_anew, first_data, redo_split_left};
pub use split_right::redo_split_right;
