//! pg_archivecleanup.
#![tactic(auto)]

mod archive;
mod cleans;
mod laws;
mod names;
mod plan;
mod removing;

pub use cleans::archivecleanup;
pub use laws::cleanup_laws;
