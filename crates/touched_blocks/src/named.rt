//! What a record names.

use block_refs::RelName;

/// Some blocks of main forks that a record names.
#[derive(Clone, Copy, Debug, PartialEq, Eq)]
pub enum Named {
    /// A block that is referenced.
    OneBlock(RelName, u32),
    /// Every block of a relation from this one on; from 0 the whole relation.
    BlocksFrom(RelName, u32),
    /// Every block of every relation of this database.
    AllOf(u32),
}
