//! The tuples of a MULTI_INSERT.

ghost use Rattle.std.specs.Prelude.{◌≡◌, ◌≤◌, ◌<◌, ◌+◌, ◌^◌, None, Some, IfSome, length, if◌then◌else◌};
ghost use Rattle.std.specs.Iterator.{YieldsFirstBy, item_count};
ghost use Rattle.block_layouts.specs.Tuple.{tuple_seen};
ghost use Rattle.block_layouts.specs.MultiInsert.{even, multi_insert_tuples_of, tuple_behind, tuple_stands, tuples_end};

use crate::tuple::{HEADER_SIZE, HeapTuple, header_at};
use layout::u16_at;
use std::alloc::AllocError;
use std::marker::Model;

/// The bytes of a tuple's length and header (`SizeOfMultiInsertTuple`).
const FRONT_SIZE: usize = 2 + HEADER_SIZE;

/// Heap tuples, which are read off the record's bytes one by one. Contracts see the list of those
/// still to come.
#[derive(Debug, Drop)]
pub struct HeapTuples<'a> {
    bytes: &'a [u8],
    at: usize,
    left: usize,
}

impl<'a> Model for HeapTuples<'a> {
    ghost use Rattle.std.specs.Prelude.{true, ◌≡◌, List, is_some};
    ghost use Rattle.block_layouts.specs.Tuple.{TupleView};
    ghost use Rattle.block_layouts.specs.MultiInsert.{tuples_end, tuples_from};

    ghost Value = { List TupleView };

    ghost view = { λ p. tuples_from p.left p.bytes.now p.at };

    ghost invariant = { λ p. is_some (tuples_end p.left p.bytes.now p.at) ≡ true };
}

/// The offset, or the next one where it is odd.
fn even(at: usize) -> usize
    requires low { at < 2 ^ 63 }
    ensures { result ≡ even at }
{
    at + at % 2
}

/// The offset behind the tuple at an offset, or `None` where no whole tuple stands there.
fn tuple_end(bytes: &[u8], at: usize) -> Option<usize>
    requires room { at ≤ length bytes.now }
    ensures value { result ≡ (if tuple_stands bytes.now at then Some (tuple_behind bytes.now at) else None) }
    ensures within { IfSome result (λ end. end ≤ length bytes.now) }
{
    let front = even(at);
    if bytes.len() < front + FRONT_SIZE {
        return None;
    }
    let end = front + FRONT_SIZE + usize::from(u16_at(bytes, front));
    if bytes.len() < end {
        return None;
    }
    Some(end)
}

/// The offset behind so many tuples from the front on.
fn tuples_end(bytes: &[u8], count: u16) -> Option<usize>
    ensures value { result ≡ tuples_end count bytes.now 0 }
{
    let mut at = 0;
    for _i in 0..count {
        at = tuple_end(bytes, at)?;
    }
    Some(at)
}

impl<'a> HeapTuples<'a> {
    /// How many are still to come.
    pub fn len(&self) -> usize
        ensures value { result ≡ length self.now }
    {
        self.left
    }
}

/// A clone has the same still to come. It takes no memory, so it doesn't fail.
impl<'a> Clone for HeapTuples<'a> {
    ghost use Rattle.std.specs.Prelude.{◌≡◌, ⊤};

    ghost is_clone = { λ old new. new ≡ old };

    ghost is_infallible = { λ _. ⊤ };

    fn clone(&self) -> Result<HeapTuples<'a>, AllocError> {
        Ok(HeapTuples {
            bytes: self.bytes,
            at: self.at,
            left: self.left,
        })
    }
}

impl<'a> Iterator for HeapTuples<'a> {
    type Item = HeapTuple<'a>;

    ghost next_gives = { YieldsFirstBy tuple_seen (λ rest. rest) };

    ghost remaining = { item_count (λ rest. rest) };

    fn next(&mut self) -> Option<HeapTuple<'a>> {
        if self.left == 0 {
            return None;
        }
        let front = even(self.at);
        let size = usize::from(u16_at(self.bytes, front));
        let end = front + FRONT_SIZE + size;
        let tuple = HeapTuple {
            header: header_at(self.bytes, front + 2),
            bytes: &self.bytes[front + FRONT_SIZE..end],
        };
        self.at = end;
        self.left -= 1;
        Some(tuple)
    }
}

/// The tuples of a MULTI_INSERT, of the bytes of its block 0, with the number of tuples that its
/// main bytes tell, or `None` where the bytes aren't so many tuples and nothing else. Each tuple
/// begins at an even offset.
#[tactic(auto, unfolding(crate::specs::MultiInsert::multi_insert_tuples_of))]
pub fn multi_insert_tuples(bytes: &[u8], count: u16) -> Option<HeapTuples<'_>>
    ensures value { result ≡ multi_insert_tuples_of count bytes.now }
{
    let end = tuples_end(bytes, count)?;
    if end != bytes.len() {
        return None;
    }
    let left = usize::from(count);
    Some(HeapTuples { bytes, at: 0, left })
}
