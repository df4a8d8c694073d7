//! What records do to a cluster, record by record.
#![tactic(auto)]

mod records;
mod world;

pub use block_replay::{RecordFault, Skipped};
pub use records::replay_record;
pub use storage_replay::Files;
pub use world::Replaying;
