//! A tree of files in which, of what lies below a root, only the folders that replay changes are seen.
#![tactic(auto)]

mod alone;
mod names;
mod root;

pub use alone::AreasAlone;
