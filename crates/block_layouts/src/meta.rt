//! The metapage of a B-tree.

ghost use Rattle.std.specs.Prelude.{◌≡◌};
ghost use Rattle.block_layouts.specs.Meta.{metapage_of};

use layout::{u8_at, u32_at};

/// The bytes of the fields that are read.
const META_SIZE: usize = 25;

/// What a record holds of a B-tree's metapage (PostgreSQL 16, src/include/access/nbtxlog.h,
/// `xl_btree_metadata`).
#[derive(Clone, Copy, Debug, PartialEq, Eq)]
pub struct BtreeMeta {
    /// The version of the tree.
    pub version: u32,
    /// The block of the root.
    pub root: u32,
    /// The level of the root.
    pub level: u32,
    /// The block of the fast root.
    pub fast_root: u32,
    /// The level of the fast root.
    pub fast_level: u32,
    /// How many deleted pages the last clean-up left (`last_cleanup_num_delpages`).
    pub deleted_pages: u32,
    /// Whether equal values have equal images (`allequalimage`): the byte as it stands, 0 for no.
    pub all_equal_image: u8,
}

/// The fields of a B-tree's metapage, of the bytes of its block, or `None` where they are fewer than
/// 25.
pub fn metapage(bytes: &[u8]) -> Option<BtreeMeta>
    ensures value { result ≡ metapage_of bytes.now }
{
    if bytes.len() < META_SIZE {
        return None;
    }
    Some(BtreeMeta {
        version: u32_at(bytes, 0),
        root: u32_at(bytes, 4),
        level: u32_at(bytes, 8),
        fast_root: u32_at(bytes, 12),
        fast_level: u32_at(bytes, 16),
        deleted_pages: u32_at(bytes, 20),
        all_equal_image: u8_at(bytes, 24),
    })
}
