//! Where the blocks of a record stand in its body.

use crate::block_ref::BlockRef;
use crate::names::{BlockName, Fork, RelName};
use arrayvec::ArrayVec;

/// How many block references a record has at most: their ids rise from 0 to 32 (`XLR_MAX_BLOCK_ID`).
pub const MOST_BLOCKS: usize = 33;

/// The blocks of a record, in the order of the record.
pub type Blocks = ArrayVec<Placed, MOST_BLOCKS>;

/// Where the image and the bytes of a block stand.
#[derive(Clone, Copy, Debug)]
pub struct Placed {
    /// The block reference.
    pub block: BlockRef,
    /// Where its image begins, counted from the end of the headers.
    pub image_at: usize,
    /// Where its bytes begin, counted from there too.
    pub at: usize,
    /// How many bytes it has beside its image.
    pub size: u16,
}

/// The first block of no relation: what stands in a place that isn't used.
const NO_BLOCK: BlockRef = BlockRef {
    id: 0,
    name: BlockName {
        rel: RelName {
            space: 0,
            database: 0,
            relation: 0,
        },
        fork: Fork::Main,
        block: 0,
    },
    will_init: false,
    image: None,
};

impl Default for Placed {
    fn default() -> Placed {
        Placed {
            block: NO_BLOCK,
            image_at: 0,
            at: 0,
            size: 0,
        }
    }
}
