//! What a dump has shown.

use wal_base::Lsn;

/// What a dump that wasn't refused has shown.
#[derive(Clone, Copy, Debug, PartialEq, Eq)]
pub struct Dumped {
    /// How many records were shown. In a quiet dump, how many would have been.
    pub shown: u64,
    /// Where the last record at or past the start ends that was walked, shown or not. The record
    /// that fills the limit counts, and the one whose last byte lies at or past the stop doesn't.
    pub end: Lsn,
}
