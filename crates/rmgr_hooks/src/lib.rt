//! Resource managers of extensions: what one states of its records, and the functions that it hands in.
#![tactic(auto)]

mod manager;
mod no_manager;

pub use manager::Manager;
pub use no_manager::NoManager;
