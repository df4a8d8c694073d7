//! The names of an archive's files, and which of them a clean-up removes.
#![tactic(auto)]

mod cleanup;
mod forms;

pub use cleanup::cleanup_list;
pub use forms::is_kept_name;
