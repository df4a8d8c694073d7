// Bits of the visibility map that a record clears.
use block_refs::RelName;

/// Which of a block's bits are cleared.
#[derive(Clone, Copy)]
pub enum ClearedBits {
    /// Both, all visible and all frozen (`VISIBILITYMAP_VALID_BITS`).
    Both,
    /// All frozen alone (`VISIBILITYMAP_ALL_FROZEN`).
    AllFrozen,
}

/// Bits of a heap block in the visibility map of its relation.
#[derive(Clone, Copy)]
pub struct Clearing {
    /// The relation.
    pub rel: RelName,
    /// The heap block's number.
    pub block: u32,
    /// The bits.
    pub bits: ClearedBits,
}

/// What a record clears: a block's bits, and then another's.
#[derive(Clone, Copy)]
pub struct Clears {
    /// The first, of an update that of the old tuple's block.
    pub first: Option<Clearing>,
    /// The second, of an update that of the new tuple's block.
    pub second: Option<Clearing>,
}
