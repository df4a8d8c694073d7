//! Replay on the folders of databases and on relation maps.
#![tactic(auto)]

mod databases;
mod relation_map;

pub use databases::{drop_database, make_database};
pub use relation_map::write_relation_map;
