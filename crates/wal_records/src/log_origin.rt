//! Where a log that is written begins.

use wal_base::SegSize;

/// Where a log begins, and what its pages say.
#[derive(Clone, Copy, Debug)]
pub struct LogOrigin {
    /// The position of its first byte: a segment's start.
    pub start: u64,
    /// The timeline of its pages.
    pub tli: u32,
    /// The system that writes it.
    pub system: u64,
    /// The size of its segments.
    pub size: SegSize,
}
