//! The state of a block in files, and what each call of replay leaves of it.
#![tactic(auto)]

mod changes;
mod cut;
mod databases;
mod files;
mod gaps;
mod lengths;
mod trees;
mod written;

pub use changes::change_laws;
pub use cut::cut_laws;
pub use databases::database_laws;
pub use files::file_laws;
pub use gaps::gap_laws;
pub use lengths::length_laws;
pub use trees::tree_laws;
pub use written::written_laws;
