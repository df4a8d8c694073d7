//! Operations of the manager Heap2, and their layouts.

ghost use Rattle.std.specs.Prelude.{◌≡◌, IfSome, length};
ghost use Rattle.record_layouts.specs.Heap2.{heap_prune_of, heap_vacuum_of, heap_freeze_page_of, heap_visible_of, heap2_op_of, multi_insert_of, heap2_number, heap2_is_whole};

use crate::heap::HeapLock;
use crate::places::Places;
use layout::{u8_at, u16_at, u32_at};

/// An operation of the manager Heap2 (`XLOG_HEAP2_..` of src/include/access/heapam_xlog.h).
#[derive(Clone, Copy, Debug, PartialEq, Eq)]
pub enum Heap2Op {
    /// A mapping of a rewritten relation, for logical decoding. Its layout is not read.
    Rewrite,
    /// A page is pruned.
    Prune,
    /// Dead places become unused.
    Vacuum,
    /// Tuples are frozen.
    FreezePage,
    /// All of a page is visible, or frozen, in the map.
    Visible,
    /// Several tuples are inserted.
    MultiInsert {
        /// Whether the page is made anew first, `XLOG_HEAP_INIT_PAGE`.
        init: bool,
    },
    /// The later versions of a tuple are locked. The layout is `HeapLock`.
    LockUpdated,
    /// A command id, for logical decoding. Its layout is not read.
    NewCid,
}

impl Heap2Op {
    /// The operation of a record with this `info`: the bits 70 (`XLOG_HEAP_OPMASK`), and beside them
    /// bit 80. Each number has an operation.
    #[tactic(auto, unfolding(crate::specs::Heap2::heap2_op_of))]
    pub fn of(info: u8) -> Heap2Op
        ensures { result ≡ heap2_op_of info }
    {
        let init = info & 0x80 != 0;
        match info & 0x70 {
            0x00 => Heap2Op::Rewrite,
            0x10 => Heap2Op::Prune,
            0x20 => Heap2Op::Vacuum,
            0x30 => Heap2Op::FreezePage,
            0x40 => Heap2Op::Visible,
            0x50 => Heap2Op::MultiInsert { init },
            0x60 => Heap2Op::LockUpdated,
            _ => Heap2Op::NewCid,
        }
    }

    /// Its number, as `info` has it.
    pub fn number(self) -> u8
        ensures { result ≡ heap2_number self }
    {
        match self {
            Heap2Op::Rewrite => 0x00,
            Heap2Op::Prune => 0x10,
            Heap2Op::Vacuum => 0x20,
            Heap2Op::FreezePage => 0x30,
            Heap2Op::Visible => 0x40,
            Heap2Op::MultiInsert { .. } => 0x50,
            Heap2Op::LockUpdated => 0x60,
            Heap2Op::NewCid => 0x70,
        }
    }

    /// Whether the main bytes hold its whole layout. An operation whose layout isn't read here is
    /// whole.
    pub fn is_whole(self, main: &[u8]) -> bool
        ensures { result ≡ heap2_is_whole self main.now }
    {
        match self {
            Heap2Op::Prune => HeapPrune::read(main).is_some(),
            Heap2Op::Vacuum => HeapVacuum::read(main).is_some(),
            Heap2Op::FreezePage => HeapFreezePage::read(main).is_some(),
            Heap2Op::Visible => HeapVisible::read(main).is_some(),
            Heap2Op::MultiInsert { init } => HeapMultiInsert::read(init, main).is_some(),
            Heap2Op::LockUpdated => HeapLock::read(main).is_some(),
            Heap2Op::Rewrite | Heap2Op::NewCid => true,
        }
    }
}

/// What MULTI_INSERT says (`xl_heap_multi_insert`). The tuples stand in the bytes of block 0.
#[derive(Drop)]
pub struct HeapMultiInsert<'a> {
    /// Flags, `XLH_INSERT_..`.
    pub flags: u8,
    /// How many tuples there are.
    pub ntuples: u16,
    /// The places of the tuples, from 1, as many as there are tuples. On a page that is made anew they are 1, 2 and so on, and the
    /// record leaves them out.
    pub places: Places<'a>,
}

impl<'a> HeapMultiInsert<'a> {
    /// The layout at the front of the main bytes of a record whose operation has this `init`, or
    /// `None` where it isn't whole.
    pub fn read(init: bool, bytes: &'a [u8]) -> Option<HeapMultiInsert<'a>>
        ensures value { result ≡ multi_insert_of init bytes.now }
        ensures places { IfSome result (λ insert. length insert.places ≡ insert.ntuples) }
    {
        if bytes.len() < 4 {
            return None;
        }
        let flags = u8_at(bytes, 0);
        let ntuples = u16_at(bytes, 2);
        let places = Places::read(init, ntuples, &bytes[4..])?;
        Some(HeapMultiInsert {
            flags,
            ntuples,
            places,
        })
    }
}

/// What PRUNE says (`xl_heap_prune`). The places stand in the bytes of block 0.
#[derive(Clone, Copy, Debug, PartialEq, Eq)]
pub struct HeapPrune {
    /// Transactions up to this one may be in conflict with it.
    pub horizon: u32,
    /// How many pairs of places are redirected.
    pub nredirected: u16,
    /// How many places become dead.
    pub ndead: u16,
    /// Whether the relation is a catalog, where the byte is there.
    pub catalog: Option<u8>,
}

impl HeapPrune {
    /// The layout at the front of the main bytes, or `None` where there are fewer than 8.
    pub fn read(bytes: &[u8]) -> Option<HeapPrune>
        ensures { result ≡ heap_prune_of bytes.now }
    {
        if bytes.len() < 8 {
            return None;
        }
        Some(HeapPrune {
            horizon: u32_at(bytes, 0),
            nredirected: u16_at(bytes, 4),
            ndead: u16_at(bytes, 6),
            catalog: bytes.get(8).copied(),
        })
    }
}

/// What VACUUM says (`xl_heap_vacuum`). The places stand in the bytes of block 0.
#[derive(Clone, Copy, Debug, PartialEq, Eq)]
pub struct HeapVacuum {
    /// How many places become unused.
    pub nunused: u16,
}

impl HeapVacuum {
    /// The layout at the front of the main bytes, or `None` where there are fewer than 2.
    pub fn read(bytes: &[u8]) -> Option<HeapVacuum>
        ensures { result ≡ heap_vacuum_of bytes.now }
    {
        if bytes.len() < 2 {
            return None;
        }
        Some(HeapVacuum {
            nunused: u16_at(bytes, 0),
        })
    }
}

/// What FREEZE_PAGE says (`xl_heap_freeze_page`). The plans stand in the bytes of block 0.
#[derive(Clone, Copy, Debug, PartialEq, Eq)]
pub struct HeapFreezePage {
    /// Transactions up to this one may be in conflict with it.
    pub horizon: u32,
    /// How many plans there are.
    pub nplans: u16,
    /// Whether the relation is a catalog, where the byte is there.
    pub catalog: Option<u8>,
}

impl HeapFreezePage {
    /// The layout at the front of the main bytes, or `None` where there are fewer than 6.
    pub fn read(bytes: &[u8]) -> Option<HeapFreezePage>
        ensures { result ≡ heap_freeze_page_of bytes.now }
    {
        if bytes.len() < 6 {
            return None;
        }
        Some(HeapFreezePage {
            horizon: u32_at(bytes, 0),
            nplans: u16_at(bytes, 4),
            catalog: bytes.get(6).copied(),
        })
    }
}

/// What VISIBLE says (`xl_heap_visible`).
#[derive(Clone, Copy, Debug, PartialEq, Eq)]
pub struct HeapVisible {
    /// Transactions up to this one may be in conflict with it.
    pub horizon: u32,
    /// The bits that are set in the map.
    pub flags: u8,
}

impl HeapVisible {
    /// The layout at the front of the main bytes, or `None` where there are fewer than 5.
    pub fn read(bytes: &[u8]) -> Option<HeapVisible>
        ensures { result ≡ heap_visible_of bytes.now }
    {
        if bytes.len() < 5 {
            return None;
        }
        Some(HeapVisible {
            horizon: u32_at(bytes, 0),
            flags: u8_at(bytes, 4),
        })
    }
}
