//! Operations of the manager Storage, and their layouts.

ghost use Rattle.std.specs.Prelude.{◌≡◌};
ghost use Rattle.block_refs.specs.Names.{fork_of};
ghost use Rattle.record_layouts.specs.Storage.{storage_truncate_of, storage_op_of, storage_create_of, created_name_of, cut_name_of, storage_number, storage_is_whole};

use crate::fields::{relation_at, relation_if};
use block_refs::{Fork, RelName};
use layout::u32_at;

/// An operation of the manager Storage (`XLOG_SMGR_..` of src/include/catalog/storage_xlog.h).
#[derive(Clone, Copy, Debug, PartialEq, Eq)]
pub enum StorageOp {
    /// A fork's first file is made.
    Create,
    /// A relation is cut.
    Truncate,
    /// An operation that version 16 does not have: its number, `info` without the low four bits.
    Unlisted(u8),
}

impl StorageOp {
    /// The operation of a record with this `info`, whose low four bits belong to every manager alike.
    #[tactic(auto, unfolding(crate::specs::Storage::storage_op_of))]
    pub fn of(info: u8) -> StorageOp
        ensures { result ≡ storage_op_of info }
    {
        match info & 0xF0 {
            0x10 => StorageOp::Create,
            0x20 => StorageOp::Truncate,
            number => StorageOp::Unlisted(number),
        }
    }

    /// Its number, as `info` has it.
    pub fn number(self) -> u8
        ensures { result ≡ storage_number self }
    {
        match self {
            StorageOp::Create => 0x10,
            StorageOp::Truncate => 0x20,
            StorageOp::Unlisted(number) => number,
        }
    }

    /// Whether the main bytes hold its whole layout. An operation whose layout isn't read here is
    /// whole.
    pub fn is_whole(self, main: &[u8]) -> bool
        ensures { result ≡ storage_is_whole self main.now }
    {
        match self {
            StorageOp::Create => StorageCreate::read(main).is_some(),
            StorageOp::Truncate => StorageTruncate::read(main).is_some(),
            StorageOp::Unlisted(_) => true,
        }
    }
}

/// The fork of a number of four bytes, or `None` above 3.
#[tactic(auto, unfolding(block_refs::specs::Names::fork_of))]
fn fork_of(number: u32) -> Option<Fork>
    ensures { result ≡ fork_of number }
{
    if number > 3 {
        return None;
    }
    Fork::from_number(number as u8)
}

/// What CREATE says (`xl_smgr_create`).
#[derive(Clone, Copy, Debug, PartialEq, Eq)]
pub struct StorageCreate {
    /// The relation.
    pub rel: RelName,
    /// The fork whose first file is made.
    pub fork: Fork,
}

impl StorageCreate {
    /// The layout at the front of the main bytes, or `None` where there are fewer than 16 or the
    /// fork's number is above 3.
    pub fn read(bytes: &[u8]) -> Option<StorageCreate>
        ensures { result ≡ storage_create_of bytes.now }
    {
        if bytes.len() < 16 {
            return None;
        }
        let rel = relation_at(bytes, 0);
        let fork = fork_of(u32_at(bytes, 12))?;
        Some(StorageCreate { rel, fork })
    }

    /// The relation that a CREATE names, also where its layout isn't whole, or `None` where the main
    /// bytes are fewer than 12.
    pub fn rel_if_whole(bytes: &[u8]) -> Option<RelName>
        ensures { result ≡ created_name_of bytes.now }
    {
        relation_if(bytes, 0)
    }
}

/// What TRUNCATE says (`xl_smgr_truncate`).
#[derive(Clone, Copy, Debug, PartialEq, Eq)]
pub struct StorageTruncate {
    /// How many blocks of the main fork stay.
    pub blocks: u32,
    /// The relation.
    pub rel: RelName,
    /// Which forks are cut, `SMGR_TRUNCATE_..`: 1 the main one, 2 the visibility map, 4 the free space map.
    pub flags: u32,
}

impl StorageTruncate {
    /// The layout at the front of the main bytes, or `None` where there are fewer than 20.
    pub fn read(bytes: &[u8]) -> Option<StorageTruncate>
        ensures { result ≡ storage_truncate_of bytes.now }
    {
        if bytes.len() < 20 {
            return None;
        }
        Some(StorageTruncate {
            blocks: u32_at(bytes, 0),
            rel: relation_at(bytes, 4),
            flags: u32_at(bytes, 16),
        })
    }
}

impl StorageTruncate {
    /// The relation that a TRUNCATE names, also where its layout isn't whole, or `None` where the main
    /// bytes are fewer than 16.
    pub fn rel_if_whole(bytes: &[u8]) -> Option<RelName>
        ensures { result ≡ cut_name_of bytes.now }
    {
        relation_if(bytes, 4)
    }
}
