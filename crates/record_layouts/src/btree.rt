//! Operations of the manager Btree, and their layouts.

ghost use Rattle.std.specs.Prelude.{◌≡◌};
ghost use Rattle.record_layouts.specs.Btree.{btree_insert_of, btree_split_of, btree_dedup_of, btree_delete_of, btree_vacuum_of, btree_new_root_of, btree_op_of, btree_number, btree_is_whole};

use layout::{u16_at, u32_at};

/// An operation of the manager Btree (`XLOG_BTREE_..` of src/include/access/nbtxlog.h).
#[derive(Clone, Copy, Debug, PartialEq, Eq)]
pub enum BtreeOp {
    /// A tuple comes to a leaf.
    InsertLeaf,
    /// A tuple comes to another page.
    InsertUpper,
    /// The same, and the metapage becomes another one.
    InsertMeta,
    /// A page is split, and the new tuple is on the left one (SPLIT_L).
    SplitLeft,
    /// A page is split, and the new tuple is on the right one (SPLIT_R).
    SplitRight,
    /// A tuple comes to a leaf and a posting list is split.
    InsertPost,
    /// Tuples are merged into posting lists.
    Dedup,
    /// Tuples of a leaf go.
    Delete,
    /// A page is taken out of the tree.
    UnlinkPage,
    /// The same, and the metapage becomes another one.
    UnlinkPageMeta,
    /// A root is made.
    NewRoot,
    /// A leaf is about to go.
    MarkPageHalfDead,
    /// Tuples of a leaf go, by vacuum.
    Vacuum,
    /// A page is used again.
    ReusePage,
    /// The metapage becomes another one.
    MetaCleanup,
    /// An operation that version 16 does not have: its number, `info` without the low four bits.
    Unlisted(u8),
}

impl BtreeOp {
    /// The operation of a record with this `info`, whose low four bits belong to every manager alike.
    #[tactic(auto, unfolding(crate::specs::Btree::btree_op_of))]
    pub fn of(info: u8) -> BtreeOp
        ensures { result ≡ btree_op_of info }
    {
        match info & 0xF0 {
            0x00 => BtreeOp::InsertLeaf,
            0x10 => BtreeOp::InsertUpper,
            0x20 => BtreeOp::InsertMeta,
            0x30 => BtreeOp::SplitLeft,
            0x40 => BtreeOp::SplitRight,
            0x50 => BtreeOp::InsertPost,
            0x60 => BtreeOp::Dedup,
            0x70 => BtreeOp::Delete,
            0x80 => BtreeOp::UnlinkPage,
            0x90 => BtreeOp::UnlinkPageMeta,
            0xA0 => BtreeOp::NewRoot,
            0xB0 => BtreeOp::MarkPageHalfDead,
            0xC0 => BtreeOp::Vacuum,
            0xD0 => BtreeOp::ReusePage,
            0xE0 => BtreeOp::MetaCleanup,
            number => BtreeOp::Unlisted(number),
        }
    }

    /// Its number, as `info` has it.
    pub fn number(self) -> u8
        ensures { result ≡ btree_number self }
    {
        match self {
            BtreeOp::InsertLeaf => 0x00,
            BtreeOp::InsertUpper => 0x10,
            BtreeOp::InsertMeta => 0x20,
            BtreeOp::SplitLeft => 0x30,
            BtreeOp::SplitRight => 0x40,
            BtreeOp::InsertPost => 0x50,
            BtreeOp::Dedup => 0x60,
            BtreeOp::Delete => 0x70,
            BtreeOp::UnlinkPage => 0x80,
            BtreeOp::UnlinkPageMeta => 0x90,
            BtreeOp::NewRoot => 0xA0,
            BtreeOp::MarkPageHalfDead => 0xB0,
            BtreeOp::Vacuum => 0xC0,
            BtreeOp::ReusePage => 0xD0,
            BtreeOp::MetaCleanup => 0xE0,
            BtreeOp::Unlisted(number) => number,
        }
    }

    /// Whether the main bytes hold its whole layout. An operation whose layout isn't read here is
    /// whole.
    pub fn is_whole(self, main: &[u8]) -> bool
        ensures { result ≡ btree_is_whole self main.now }
    {
        match self {
            BtreeOp::InsertLeaf
            | BtreeOp::InsertUpper
            | BtreeOp::InsertMeta
            | BtreeOp::InsertPost => BtreeInsert::read(main).is_some(),
            BtreeOp::SplitLeft | BtreeOp::SplitRight => BtreeSplit::read(main).is_some(),
            BtreeOp::Dedup => BtreeDedup::read(main).is_some(),
            BtreeOp::Delete => BtreeDelete::read(main).is_some(),
            BtreeOp::NewRoot => BtreeNewRoot::read(main).is_some(),
            BtreeOp::Vacuum => BtreeVacuum::read(main).is_some(),
            BtreeOp::UnlinkPage
            | BtreeOp::UnlinkPageMeta
            | BtreeOp::MarkPageHalfDead
            | BtreeOp::ReusePage
            | BtreeOp::MetaCleanup
            | BtreeOp::Unlisted(_) => true,
        }
    }
}

/// What INSERT_LEAF, INSERT_UPPER, INSERT_META and INSERT_POST say (`xl_btree_insert`). The tuple stands in the bytes of block 0.
#[derive(Clone, Copy, Debug, PartialEq, Eq)]
pub struct BtreeInsert {
    /// The place of the new tuple, from 1.
    pub off: u16,
}

impl BtreeInsert {
    /// The layout at the front of the main bytes, or `None` where there are fewer than 2.
    pub fn read(bytes: &[u8]) -> Option<BtreeInsert>
        ensures { result ≡ btree_insert_of bytes.now }
    {
        if bytes.len() < 2 {
            return None;
        }
        Some(BtreeInsert {
            off: u16_at(bytes, 0),
        })
    }
}

/// What SPLIT_L and SPLIT_R say (`xl_btree_split`).
#[derive(Clone, Copy, Debug, PartialEq, Eq)]
pub struct BtreeSplit {
    /// The level of the page that is split, 0 for a leaf.
    pub level: u32,
    /// The place of the first tuple that goes to the right page.
    pub first_right: u16,
    /// The place of the new tuple.
    pub new_item: u16,
    /// The offset within a posting list that is split, or 0.
    pub posting: u16,
}

impl BtreeSplit {
    /// The layout at the front of the main bytes, or `None` where there are fewer than 10.
    pub fn read(bytes: &[u8]) -> Option<BtreeSplit>
        ensures { result ≡ btree_split_of bytes.now }
    {
        if bytes.len() < 10 {
            return None;
        }
        Some(BtreeSplit {
            level: u32_at(bytes, 0),
            first_right: u16_at(bytes, 4),
            new_item: u16_at(bytes, 6),
            posting: u16_at(bytes, 8),
        })
    }
}

/// What DEDUP says (`xl_btree_dedup`). The intervals stand in the bytes of block 0.
#[derive(Clone, Copy, Debug, PartialEq, Eq)]
pub struct BtreeDedup {
    /// How many intervals are merged.
    pub nintervals: u16,
}

impl BtreeDedup {
    /// The layout at the front of the main bytes, or `None` where there are fewer than 2.
    pub fn read(bytes: &[u8]) -> Option<BtreeDedup>
        ensures { result ≡ btree_dedup_of bytes.now }
    {
        if bytes.len() < 2 {
            return None;
        }
        Some(BtreeDedup {
            nintervals: u16_at(bytes, 0),
        })
    }
}

/// What DELETE says (`xl_btree_delete`). The places stand in the bytes of block 0.
#[derive(Clone, Copy, Debug, PartialEq, Eq)]
pub struct BtreeDelete {
    /// Transactions up to this one may be in conflict with it.
    pub horizon: u32,
    /// How many tuples go.
    pub ndeleted: u16,
    /// How many posting lists become shorter.
    pub nupdated: u16,
    /// Whether the index is one of a catalog, where the byte is there.
    pub catalog: Option<u8>,
}

impl BtreeDelete {
    /// The layout at the front of the main bytes, or `None` where there are fewer than 8.
    pub fn read(bytes: &[u8]) -> Option<BtreeDelete>
        ensures { result ≡ btree_delete_of bytes.now }
    {
        if bytes.len() < 8 {
            return None;
        }
        Some(BtreeDelete {
            horizon: u32_at(bytes, 0),
            ndeleted: u16_at(bytes, 4),
            nupdated: u16_at(bytes, 6),
            catalog: bytes.get(8).copied(),
        })
    }
}

/// What VACUUM says (`xl_btree_vacuum`). The places stand in the bytes of block 0.
#[derive(Clone, Copy, Debug, PartialEq, Eq)]
pub struct BtreeVacuum {
    /// How many tuples go.
    pub ndeleted: u16,
    /// How many posting lists become shorter.
    pub nupdated: u16,
}

impl BtreeVacuum {
    /// The layout at the front of the main bytes, or `None` where there are fewer than 4.
    pub fn read(bytes: &[u8]) -> Option<BtreeVacuum>
        ensures { result ≡ btree_vacuum_of bytes.now }
    {
        if bytes.len() < 4 {
            return None;
        }
        Some(BtreeVacuum {
            ndeleted: u16_at(bytes, 0),
            nupdated: u16_at(bytes, 2),
        })
    }
}

/// What NEWROOT says (`xl_btree_newroot`).
#[derive(Clone, Copy, Debug, PartialEq, Eq)]
pub struct BtreeNewRoot {
    /// The block of the new root.
    pub root: u32,
    /// Its level, 0 for a leaf.
    pub level: u32,
}

impl BtreeNewRoot {
    /// The layout at the front of the main bytes, or `None` where there are fewer than 8.
    pub fn read(bytes: &[u8]) -> Option<BtreeNewRoot>
        ensures { result ≡ btree_new_root_of bytes.now }
    {
        if bytes.len() < 8 {
            return None;
        }
        Some(BtreeNewRoot {
            root: u32_at(bytes, 0),
            level: u32_at(bytes, 4),
        })
    }
}
