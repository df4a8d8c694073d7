//! What a record says of a block.

ghost use Rattle.std.specs.Prelude.{◌≡◌, ◌≤◌};
ghost use Rattle.block_refs.specs.Fragment.{image_size};

use crate::names::BlockName;

/// How many bytes a data page has (`BLCKSZ`).
const PAGE_SIZE: u32 = 8192;

/// A full-page image that isn't compressed.
#[derive(Clone, Copy, Debug, PartialEq, Eq)]
pub struct ImageRef {
    /// Whether redo puts it in place. Else it is there for checks alone.
    pub apply: bool,
    /// Where in the page its hole begins, in bytes, or 0 where it has none.
    pub hole_at: u16,
    /// How many bytes the hole has: zeros that the record leaves out.
    pub hole: u16,
}

/// A reference of a record to a block (`XLogRecordBlockHeader`).
#[derive(Clone, Copy, Debug, PartialEq, Eq)]
pub struct BlockRef {
    /// Its id in the record, 0 to 32.
    pub id: u8,
    /// The block.
    pub name: BlockName,
    /// Whether redo makes the page anew.
    pub will_init: bool,
    /// Its full-page image, if the record has one.
    pub image: Option<ImageRef>,
}

impl BlockRef {
    /// How many bytes of the record its image has: a page less its hole.
    pub(crate) fn image_size(&self) -> u32
        ensures value { result ≡ image_size self.now }
        ensures most { result ≤ 8192 }
    {
        match self.image {
            None => 0,
            Some(image) => PAGE_SIZE.saturating_sub(u32::from(image.hole)),
        }
    }
}
