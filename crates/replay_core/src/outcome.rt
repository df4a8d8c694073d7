// What a replay tells.
use wal_base::Lsn;

/// What was replayed.
#[derive(Clone, Copy, Debug, PartialEq, Eq)]
pub struct Replayed {
    /// How many records.
    pub records: u64,
    /// Where the last of them ends.
    pub end: Lsn,
    /// The cluster's timeline.
    pub tli: u32,
}
