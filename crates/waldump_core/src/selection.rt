//! What a dump is asked for.

use block_refs::{Fork, RelName};
use wal_base::Lsn;

/// What a dump is asked for, as pg_waldump's options say it. A record is shown where it meets each
/// filter that is given.
#[derive(Clone, Copy, Debug, PartialEq, Eq)]
pub struct Selection {
    /// Records that start below this position are passed over (`--start`).
    pub start: Lsn,
    /// The dump ends before the first record whose last byte lies here or past it (`--end`).
    pub stop: Option<Lsn>,
    /// The dump ends once so many records were shown; 0 is no limit (`--limit`).
    pub limit: u64,
    /// Each block reference gets a line of its own (`--bkp-details`).
    pub details: bool,
    /// Nothing is shown (`--quiet`).
    pub quiet: bool,
    /// Only records with a full-page image (`--fullpage`).
    pub images_only: bool,
    /// Only records of this resource manager, by its number (`--rmgr`).
    pub manager: Option<u8>,
    /// Only records that refer to a block of this relation (`--relation`). One block reference has
    /// to meet this filter and the next two.
    pub rel: Option<RelName>,
    /// Only records that refer to a block of this number (`--block`).
    pub block: Option<u32>,
    /// Only records that refer to a block of this fork (`--fork`).
    pub fork: Option<Fork>,
    /// Only records of this transaction (`--xid`).
    pub xid: Option<u32>,
}
