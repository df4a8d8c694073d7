// What is found of a block.

/// What a fork has at a block's number.
#[derive(Clone, Copy, Debug, PartialEq, Eq)]
pub enum Found {
    /// No block: the fork is shorter, or isn't there.
    Absent,
    /// A block of zeros.
    Zero,
    /// Any other block.
    Page,
}
