//! What two histories have in common.

use wal_base::Lsn;

/// The last point that two histories share.
#[derive(Clone, Copy, Debug, PartialEq, Eq)]
pub struct Divergence {
    /// The timeline that both are on there.
    pub tli: u32,
    /// The position at which the first of them leaves it.
    pub at: Lsn,
}

/// Where two histories part, if they have anything in common.
#[derive(Clone, Copy, Debug, PartialEq, Eq)]
pub enum Ancestor {
    /// They are the same up to here.
    Common(Divergence),
    /// They differ from the start.
    NoCommonAncestor,
}
