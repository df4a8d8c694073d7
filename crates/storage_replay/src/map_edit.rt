// What becomes of bits of the visibility map.

/// What becomes of a heap block's bits in its page of the visibility map.
#[derive(Clone, Copy)]
pub enum MapEdit {
    /// These bits of the block are cleared: 1 all visible, 2 all frozen.
    Clear(u8),
    /// The block's bits are cleared, and those of all blocks behind it in the page.
    Cut,
}
