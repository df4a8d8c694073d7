//! The tuple of an INSERT.

ghost use Rattle.std.specs.Prelude.{◌≡◌, ◌≤◌, ◌+◌, length, option_map};
ghost use Rattle.block_layouts.specs.Tuple.{header_at, insert_tuple_of, tuple_seen};

use layout::{u8_at, u16_at};

/// The bytes of a tuple's header in a record (`SizeOfHeapHeader`).
pub(crate) const HEADER_SIZE: usize = 5;

/// What a record holds of a heap tuple's header (`xl_heap_header`). The rest of the header is told
/// by the record's transaction, its main bytes and the block.
#[derive(Clone, Copy, Debug, PartialEq, Eq)]
pub struct TupleHeader {
    /// The tuple's `t_infomask2`.
    pub infomask2: u16,
    /// The tuple's `t_infomask`.
    pub infomask: u16,
    /// The tuple's `t_hoff`: where its values begin, counted from the tuple's first byte.
    pub hoff: u8,
}

/// A heap tuple as a record holds it (PostgreSQL 16, src/include/access/heapam_xlog.h).
#[derive(Clone, Copy, Debug)]
pub struct HeapTuple<'a> {
    /// What the record holds of its header.
    pub header: TupleHeader,
    /// The tuple's bytes from byte 23 on (`SizeofHeapTupleHeader`).
    pub bytes: &'a [u8],
}

/// The tuple's header at an offset.
pub(crate) fn header_at(bytes: &[u8], at: usize) -> TupleHeader
    requires room { at + 5 ≤ length bytes.now }
    ensures { result ≡ header_at at bytes.now }
{
    TupleHeader {
        infomask2: u16_at(bytes, at),
        infomask: u16_at(bytes, at + 2),
        hoff: u8_at(bytes, at + 4),
    }
}

/// The tuple that an INSERT adds, of the bytes of its block 0, or `None` where they are fewer than
/// the five bytes of its header. All that stands behind the header belongs to the tuple.
pub fn insert_tuple(bytes: &[u8]) -> Option<HeapTuple<'_>>
    ensures value { option_map tuple_seen result ≡ insert_tuple_of bytes.now }
{
    if bytes.len() < HEADER_SIZE {
        return None;
    }
    Some(HeapTuple {
        header: header_at(bytes, 0),
        bytes: &bytes[HEADER_SIZE..],
    })
}
