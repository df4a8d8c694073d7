// What was found out about two clusters.
use timeline_history::Divergence;
use touched_blocks::Touched;
use wal_base::Lsn;

/// From where a target is rewound.
#[derive(Clone, Copy, Debug, PartialEq, Eq)]
pub struct Told {
    /// Where the target and the source parted.
    pub fork: Divergence,
    /// Where the last checkpoint record before that starts.
    pub checkpoint: Lsn,
    /// The timeline that stands in this record.
    pub tli: u32,
}

/// Where two clusters parted, and what the target's log touched since.
#[derive(Drop)]
pub struct Parted {
    /// What is told of it.
    pub told: Told,
    /// The redo of the last common checkpoint, from which the target's log was read.
    pub redo: Lsn,
    /// The blocks of the target's relations that its log touched from there on.
    pub touched: Touched,
}

/// What a target needs.
#[derive(Drop)]
pub enum Surveyed {
    /// Nothing: both clusters are on one timeline.
    SameTimeline,
    /// Nothing: the target's log ends where the clusters parted, or below.
    EndsAtFork(Divergence),
    /// A rewind.
    Parted(Parted),
}
