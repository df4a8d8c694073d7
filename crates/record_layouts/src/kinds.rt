//! The kinds of items that lists in layouts hold.

use crate::fields::relation_at;
use crate::items::Item;
use block_refs::RelName;
use layout::u32_at;

/// A member of a multixact (`MultiXactMember`).
#[derive(Clone, Copy, Debug, PartialEq, Eq)]
pub struct Member {
    /// The transaction.
    pub xid: u32,
    /// What it holds (`MultiXactStatus`).
    pub status: u32,
}

/// Statistics of an object that are dropped (`xl_xact_stats_item`).
#[derive(Clone, Copy, Debug, PartialEq, Eq)]
pub struct StatsItem {
    /// The kind of object.
    pub kind: u32,
    /// Its database, or 0.
    pub database: u32,
    /// The object.
    pub object: u32,
}

/// A message that caches are no longer valid (`SharedInvalidationMessage`), which is not looked into.
#[derive(Clone, Copy, Debug, PartialEq, Eq)]
pub struct Message {
    /// Its bytes.
    pub bytes: [u8; 16],
}

impl Item for u32 {
    ghost use Rattle.layout.specs.Readers.{u32_at};

    ghost width = { 4 };

    ghost item = { u32_at };

    fn size() -> usize {
        4
    }

    fn read_at(bytes: &[u8], at: usize) -> u32 {
        u32_at(bytes, at)
    }
}

impl Item for RelName {
    ghost use Rattle.record_layouts.specs.Fields.{relation};

    ghost width = { 12 };

    ghost item = { relation };

    fn size() -> usize {
        12
    }

    fn read_at(bytes: &[u8], at: usize) -> RelName {
        relation_at(bytes, at)
    }
}

impl Item for Member {
    ghost use Rattle.record_layouts.specs.Items.{member};

    ghost width = { 8 };

    ghost item = { member };

    fn size() -> usize {
        8
    }

    fn read_at(bytes: &[u8], at: usize) -> Member {
        Member {
            xid: u32_at(bytes, at),
            status: u32_at(bytes, at + 4),
        }
    }
}

impl Item for StatsItem {
    ghost use Rattle.record_layouts.specs.Items.{stats_item};

    ghost width = { 12 };

    ghost item = { stats_item };

    fn size() -> usize {
        12
    }

    fn read_at(bytes: &[u8], at: usize) -> StatsItem {
        StatsItem {
            kind: u32_at(bytes, at),
            database: u32_at(bytes, at + 4),
            object: u32_at(bytes, at + 8),
        }
    }
}

impl Item for Message {
    ghost use Rattle.record_layouts.specs.Items.{message};

    ghost width = { 16 };

    ghost item = { message };

    fn size() -> usize {
        16
    }

    fn read_at(bytes: &[u8], at: usize) -> Message {
        let mut message = [0; 16];
        message.copy_from_slice(&bytes[at..at + 16]);
        Message { bytes: message }
    }
}
