//! Operations of the manager Heap, and their layouts.

ghost use Rattle.std.specs.Prelude.{◌≡◌};
ghost use Rattle.record_layouts.specs.Heap.{heap_insert_of, heap_delete_of, heap_update_of, heap_truncate_of, heap_confirm_of, heap_lock_of, heap_inplace_of, heap_op_of, heap_number, heap_is_whole};

use layout::{u8_at, u16_at, u32_at};

/// An operation of the manager Heap (`XLOG_HEAP_..` of src/include/access/heapam_xlog.h).
#[derive(Clone, Copy, Debug, PartialEq, Eq)]
pub enum HeapOp {
    /// A tuple is inserted.
    Insert {
        /// Whether the page is made anew first, `XLOG_HEAP_INIT_PAGE`.
        init: bool,
    },
    /// A tuple is deleted.
    Delete,
    /// A tuple is updated.
    Update {
        /// Whether the new tuple's page is made anew first, `XLOG_HEAP_INIT_PAGE`.
        init: bool,
    },
    /// Relations are emptied: only logical decoding reads it.
    Truncate,
    /// A tuple is updated on its page, and no index sees it.
    HotUpdate {
        /// Whether the page is made anew first, `XLOG_HEAP_INIT_PAGE`.
        init: bool,
    },
    /// A speculative insertion stays.
    HeapConfirm,
    /// A tuple is locked.
    Lock,
    /// The bytes of a tuple become others.
    Inplace,
}

impl HeapOp {
    /// The operation of a record with this `info`: the bits 70 (`XLOG_HEAP_OPMASK`), and beside them
    /// bit 80. Each number has an operation.
    #[tactic(auto, unfolding(crate::specs::Heap::heap_op_of))]
    pub fn of(info: u8) -> HeapOp
        ensures { result ≡ heap_op_of info }
    {
        let init = info & 0x80 != 0;
        match info & 0x70 {
            0x00 => HeapOp::Insert { init },
            0x10 => HeapOp::Delete,
            0x20 => HeapOp::Update { init },
            0x30 => HeapOp::Truncate,
            0x40 => HeapOp::HotUpdate { init },
            0x50 => HeapOp::HeapConfirm,
            0x60 => HeapOp::Lock,
            _ => HeapOp::Inplace,
        }
    }

    /// Its number, as `info` has it.
    pub fn number(self) -> u8
        ensures { result ≡ heap_number self }
    {
        match self {
            HeapOp::Insert { .. } => 0x00,
            HeapOp::Delete => 0x10,
            HeapOp::Update { .. } => 0x20,
            HeapOp::Truncate => 0x30,
            HeapOp::HotUpdate { .. } => 0x40,
            HeapOp::HeapConfirm => 0x50,
            HeapOp::Lock => 0x60,
            HeapOp::Inplace => 0x70,
        }
    }

    /// Whether the main bytes hold its whole layout.
    pub fn is_whole(self, main: &[u8]) -> bool
        ensures { result ≡ heap_is_whole self main.now }
    {
        match self {
            HeapOp::Insert { .. } => HeapInsert::read(main).is_some(),
            HeapOp::Delete => HeapDelete::read(main).is_some(),
            HeapOp::Update { .. } | HeapOp::HotUpdate { .. } => HeapUpdate::read(main).is_some(),
            HeapOp::Truncate => HeapTruncate::read(main).is_some(),
            HeapOp::HeapConfirm => HeapConfirm::read(main).is_some(),
            HeapOp::Lock => HeapLock::read(main).is_some(),
            HeapOp::Inplace => HeapInplace::read(main).is_some(),
        }
    }
}

/// What INSERT says (`xl_heap_insert`). The tuple stands in the bytes of block 0.
#[derive(Clone, Copy, Debug, PartialEq, Eq)]
pub struct HeapInsert {
    /// The place of the tuple, from 1.
    pub off: u16,
    /// Flags, `XLH_INSERT_..`.
    pub flags: u8,
}

impl HeapInsert {
    /// The layout at the front of the main bytes, or `None` where there are fewer than 3.
    pub fn read(bytes: &[u8]) -> Option<HeapInsert>
        ensures { result ≡ heap_insert_of bytes.now }
    {
        if bytes.len() < 3 {
            return None;
        }
        Some(HeapInsert {
            off: u16_at(bytes, 0),
            flags: u8_at(bytes, 2),
        })
    }
}

/// What DELETE says (`xl_heap_delete`).
#[derive(Clone, Copy, Debug, PartialEq, Eq)]
pub struct HeapDelete {
    /// The transaction that deletes.
    pub xmax: u32,
    /// The place of the tuple, from 1.
    pub off: u16,
    /// Bits of the infomask, `XLHL_..`.
    pub infobits: u8,
    /// Flags, `XLH_DELETE_..`.
    pub flags: u8,
}

impl HeapDelete {
    /// The layout at the front of the main bytes, or `None` where there are fewer than 8.
    pub fn read(bytes: &[u8]) -> Option<HeapDelete>
        ensures { result ≡ heap_delete_of bytes.now }
    {
        if bytes.len() < 8 {
            return None;
        }
        Some(HeapDelete {
            xmax: u32_at(bytes, 0),
            off: u16_at(bytes, 4),
            infobits: u8_at(bytes, 6),
            flags: u8_at(bytes, 7),
        })
    }
}

/// What UPDATE and HOT_UPDATE say (`xl_heap_update`). The new tuple stands in the bytes of block 0.
#[derive(Clone, Copy, Debug, PartialEq, Eq)]
pub struct HeapUpdate {
    /// The deleter of the old tuple.
    pub old_xmax: u32,
    /// The place of the old tuple, from 1.
    pub old_off: u16,
    /// Bits of the old infomask, `XLHL_..`.
    pub old_infobits: u8,
    /// Flags, `XLH_UPDATE_..`.
    pub flags: u8,
    /// The deleter of the new tuple.
    pub new_xmax: u32,
    /// The place of the new tuple, from 1.
    pub new_off: u16,
}

impl HeapUpdate {
    /// The layout at the front of the main bytes, or `None` where there are fewer than 14.
    pub fn read(bytes: &[u8]) -> Option<HeapUpdate>
        ensures { result ≡ heap_update_of bytes.now }
    {
        if bytes.len() < 14 {
            return None;
        }
        Some(HeapUpdate {
            old_xmax: u32_at(bytes, 0),
            old_off: u16_at(bytes, 4),
            old_infobits: u8_at(bytes, 6),
            flags: u8_at(bytes, 7),
            new_xmax: u32_at(bytes, 8),
            new_off: u16_at(bytes, 12),
        })
    }
}

/// What TRUNCATE says, which only logical decoding reads (`xl_heap_truncate`). Flags and the relations stand behind it.
#[derive(Clone, Copy, Debug, PartialEq, Eq)]
pub struct HeapTruncate {
    /// The database.
    pub database: u32,
    /// How many relations are emptied.
    pub nrelids: u32,
}

impl HeapTruncate {
    /// The layout at the front of the main bytes, or `None` where there are fewer than 8.
    pub fn read(bytes: &[u8]) -> Option<HeapTruncate>
        ensures { result ≡ heap_truncate_of bytes.now }
    {
        if bytes.len() < 8 {
            return None;
        }
        Some(HeapTruncate {
            database: u32_at(bytes, 0),
            nrelids: u32_at(bytes, 4),
        })
    }
}

/// What CONFIRM says: a speculative insertion stays (`xl_heap_confirm`).
#[derive(Clone, Copy, Debug, PartialEq, Eq)]
pub struct HeapConfirm {
    /// The place of the tuple, from 1.
    pub off: u16,
}

impl HeapConfirm {
    /// The layout at the front of the main bytes, or `None` where there are fewer than 2.
    pub fn read(bytes: &[u8]) -> Option<HeapConfirm>
        ensures { result ≡ heap_confirm_of bytes.now }
    {
        if bytes.len() < 2 {
            return None;
        }
        Some(HeapConfirm {
            off: u16_at(bytes, 0),
        })
    }
}

/// What LOCK says (`xl_heap_lock`), and LOCK_UPDATED of the second manager (`xl_heap_lock_updated`).
#[derive(Clone, Copy, Debug, PartialEq, Eq)]
pub struct HeapLock {
    /// The locker, a transaction or a multixact.
    pub xmax: u32,
    /// The place of the tuple, from 1.
    pub off: u16,
    /// Bits of the infomask, `XLHL_..`.
    pub infobits: u8,
    /// Flags, `XLH_LOCK_..`.
    pub flags: u8,
}

impl HeapLock {
    /// The layout at the front of the main bytes, or `None` where there are fewer than 8.
    pub fn read(bytes: &[u8]) -> Option<HeapLock>
        ensures { result ≡ heap_lock_of bytes.now }
    {
        if bytes.len() < 8 {
            return None;
        }
        Some(HeapLock {
            xmax: u32_at(bytes, 0),
            off: u16_at(bytes, 4),
            infobits: u8_at(bytes, 6),
            flags: u8_at(bytes, 7),
        })
    }
}

/// What INPLACE says (`xl_heap_inplace`). The new bytes of the tuple stand in those of block 0.
#[derive(Clone, Copy, Debug, PartialEq, Eq)]
pub struct HeapInplace {
    /// The place of the tuple, from 1.
    pub off: u16,
}

impl HeapInplace {
    /// The layout at the front of the main bytes, or `None` where there are fewer than 2.
    pub fn read(bytes: &[u8]) -> Option<HeapInplace>
        ensures { result ≡ heap_inplace_of bytes.now }
    {
        if bytes.len() < 2 {
            return None;
        }
        Some(HeapInplace {
            off: u16_at(bytes, 0),
        })
    }
}
