//! Redo of heap records that change one tuple: DELETE, HEAP_CONFIRM, LOCK, LOCK_UPDATED and INPLACE.
#![tactic(auto)]

mod confirm;
mod delete;
pub mod flags;
pub mod heap;
mod inplace;
mod laws;
mod lock;
pub mod put;

pub use confirm::redo_confirm;
pub use delete::redo_delete;
pub use heap::{start_heap, trim_heap};
pub use inplace::redo_inplace;
pub use laws::{confirm_respects, delete_respects, locks_respect};
pub use lock::{redo_lock, redo_lock_updated};
