// What becomes of a relation's files.
use block_refs::Fork;

/// What becomes of those of a relation's files that it is about.
#[derive(Clone, Copy)]
pub enum Sweep {
    /// All files go.
    Remove,
    /// The files of a fork behind a segment become empty.
    Empty(Fork, u32),
}
