//! New tuples.

ghost use Rattle.std.specs.Prelude.{ℕ, ◌≡◌, ◌+◌, ◌<◌, ◌≤◌, length, take, None, Some};
ghost use Rattle.page_layout.specs.Page.{IsFormed};
ghost use Rattle.block_layouts.specs.Tuple.{tuple_seen};
ghost use Rattle.redo_steps.specs.Redo.{Redoes};
ghost use Rattle.heap_tuples.specs.Put.{put_refusal, put_tuple};
ghost use Rattle.heap_pages.specs.NewTuple.{new_header, new_tuple};

use block_layouts::{HeapTuple, TupleHeader};
use heap_tuples::put::{put_refusal, put_tuple};
use page_layout::RedoWhy;
use page_layout::bytes::put;

/// The bytes of a tuple's header (`SizeofHeapTupleHeader`).
pub const HEADER_SIZE: usize = 23;

/// What a new tuple's header says beside what the record holds of it.
#[derive(Clone, Copy, Debug)]
pub struct NewTuple {
    /// The inserting transaction.
    pub xmin: u32,
    /// The deleting or locking transaction, 0 for none.
    pub xmax: u32,
    /// The block that it comes to.
    pub block: u32,
    /// Its place there.
    pub place: u16,
}

// The header of a new tuple.
fn header_bytes(from: NewTuple, header: TupleHeader) -> [u8; 23]
    ensures { result ≡ new_header from.xmin from.xmax from.block from.place header }
{
    [
        (from.xmin % 256) as u8,
        (from.xmin / 256 % 256) as u8,
        (from.xmin / 65536 % 256) as u8,
        (from.xmin / 16777216) as u8,
        (from.xmax % 256) as u8,
        (from.xmax / 256 % 256) as u8,
        (from.xmax / 65536 % 256) as u8,
        (from.xmax / 16777216) as u8,
        0,
        0,
        0,
        0,
        (from.block / 65536 % 256) as u8,
        (from.block / 16777216) as u8,
        (from.block % 256) as u8,
        (from.block / 256 % 256) as u8,
        (from.place % 256) as u8,
        (from.place / 256) as u8,
        (header.infomask2 % 256) as u8,
        (header.infomask2 / 256) as u8,
        (header.infomask % 256) as u8,
        (header.infomask / 256) as u8,
        header.hoff,
    ]
}

// Lays a new tuple at the front of `into`.
fn build_tuple(into: &mut [u8], from: NewTuple, tuple: HeapTuple<'_>)
    requires { 23 + length tuple.bytes.now ≤ length into.old }
    ensures { take (23 + length tuple.entry.bytes.now) into.new
        ≡ new_tuple from.xmin from.xmax from.block from.place (tuple_seen tuple.entry) }
{
    let header = header_bytes(from, tuple.header);
    put(into, 0, &header);
    put(into, HEADER_SIZE, tuple.bytes);
}

// Why a new tuple can't come to its place, if it can't.
#[tactic(auto, using(crate::proofs::NewTupleLemmas::new_tuple_length))]
fn new_refusal(page: &[u8], from: NewTuple, tuple: HeapTuple<'_>) -> Option<RedoWhy>
    requires { IsFormed page.now }
    ensures value { result ≡ put_refusal page.now from.place
        (length (new_tuple from.xmin from.xmax from.block from.place (tuple_seen tuple.entry))) }
    ensures small { result ≡ None → 23 + length tuple.entry.bytes.now ≤ 8192 }
{
    put_refusal(page, from.place, HEADER_SIZE + tuple.bytes.len())
}

/// Adds a new tuple at its place, behind unused lines where lines before it aren't there. Answers
/// `Place` where the place is 0, above 291 or in use, then `Room`.
pub fn put_new_tuple(page: &mut [u8], from: NewTuple, tuple: HeapTuple<'_>) -> Result<(), RedoWhy>
    requires { IsFormed page.old }
    ensures exact { Redoes (put_tuple from.place (new_tuple from.xmin from.xmax from.block from.place
        (tuple_seen tuple.entry)) page.old) page.old result page.new }
    ensures formed { IsFormed page.new }
{
    if let Some(why) = new_refusal(page, from, tuple) {
        return Err(why);
    }
    let mut room = [0u8; 8192];
    build_tuple(&mut room, from, tuple);
    put_tuple(page, from.place, &room[..HEADER_SIZE + tuple.bytes.len()])
}
