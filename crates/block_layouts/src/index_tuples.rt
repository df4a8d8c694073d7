//! Index tuples.

ghost use Rattle.std.specs.Prelude.{suc, ◌≡◌, ◌≤◌, ◌<◌, ◌+◌, None, Some, IfSome, MatchOption, length, slice_get, if◌then◌else◌};
ghost use Rattle.std.specs.Iterator.{YieldsFirstBy, item_count};
ghost use Rattle.block_layouts.specs.IndexTuples.{count_below, item_behind, item_size, item_stands, restored_tuples_of, told_size};

use layout::u16_at;
use std::alloc::AllocError;
use std::marker::Model;

/// The bytes of an index tuple's header (`IndexTupleData`).
pub(crate) const HEADER_SIZE: usize = 8;

/// One more than the greatest size that the header can tell (`INDEX_SIZE_MASK` is one less).
const SIZE_LIMIT: u16 = 0x2000;

/// Index tuples, which are read off the record's bytes one by one. Contracts see the list of those
/// still to come, each as its bytes.
#[derive(Debug, Drop)]
pub struct IndexTuples<'a> {
    bytes: &'a [u8],
    at: usize,
    left: usize,
}

impl<'a> Model for IndexTuples<'a> {
    ghost use Rattle.std.specs.Prelude.{true, ◌≡◌, ℕ, List, is_some};
    ghost use Rattle.block_layouts.specs.IndexTuples.{items_end, items_from};

    ghost Value = { List (List ℕ) };

    ghost view = { λ p. items_from p.left p.bytes.now p.at };

    ghost invariant = { λ p. is_some (items_end p.left p.bytes.now p.at) ≡ true };
}

/// The size that the header at an offset tells.
fn told_size(bytes: &[u8], at: usize) -> usize
    requires room { at + 8 ≤ length bytes.now }
    ensures value { result ≡ told_size bytes.now at }
    ensures most { result < 8192 }
{
    usize::from(u16_at(bytes, at + 6) % SIZE_LIMIT)
}

/// How many bytes the tuple at an offset takes.
fn item_size(bytes: &[u8], at: usize) -> usize
    requires room { at + 8 ≤ length bytes.now }
    ensures value { result ≡ item_size bytes.now at }
    ensures most { result ≤ 8192 }
{
    (told_size(bytes, at) + 7) / 8 * 8
}

/// The offset behind the tuple at an offset, or `None` where no whole tuple stands there.
pub(crate) fn item_end(bytes: &[u8], at: usize) -> Option<usize>
    requires room { at ≤ length bytes.now }
    ensures value { result ≡ (if item_stands bytes.now at then Some (item_behind bytes.now at) else None) }
    ensures within { IfSome result (λ end. end ≤ length bytes.now) }
    ensures rises { IfSome result (λ end. at < end) }
{
    if bytes.len() < at + HEADER_SIZE || told_size(bytes, at) == 0 {
        return None;
    }
    let end = at + item_size(bytes, at);
    if bytes.len() < end {
        return None;
    }
    Some(end)
}

/// How many tuples the bytes are.
fn count_tuples(bytes: &[u8]) -> Option<usize>
    ensures value { result ≡ count_below (suc (length bytes.now)) bytes.now 0 }
{
    let mut count = 0;
    let mut at = 0;
    while at < bytes.len() {
        at = item_end(bytes, at)?;
        count += 1;
    }
    Some(count)
}

impl<'a> IndexTuples<'a> {
    /// How many are still to come.
    pub fn len(&self) -> usize
        ensures value { result ≡ length self.now }
    {
        self.left
    }

    /// The bytes of the one at an index from 0 on, or `None` at `len` and past it. Those before it
    /// are passed over, since each tells its own size.
    pub fn get(&self, at: usize) -> Option<&'a [u8]>
        ensures value { MatchOption result (slice_get self.now at ≡ None)
            (λ tuple. slice_get self.now at ≡ Some tuple.now) }
    {
        if self.left <= at {
            return None;
        }
        let mut from = self.at;
        for _i in 0..at {
            from += item_size(self.bytes, from);
        }
        let end = from + item_size(self.bytes, from);
        Some(&self.bytes[from..end])
    }
}

/// A clone has the same still to come. It takes no memory, so it doesn't fail.
impl<'a> Clone for IndexTuples<'a> {
    ghost use Rattle.std.specs.Prelude.{◌≡◌, ⊤};

    ghost is_clone = { λ old new. new ≡ old };

    ghost is_infallible = { λ _. ⊤ };

    fn clone(&self) -> Result<IndexTuples<'a>, AllocError> {
        Ok(IndexTuples {
            bytes: self.bytes,
            at: self.at,
            left: self.left,
        })
    }
}

impl<'a> Iterator for IndexTuples<'a> {
    type Item = &'a [u8];

    ghost next_gives = { YieldsFirstBy (λ tuple. tuple.now) (λ rest. rest) };

    ghost remaining = { item_count (λ rest. rest) };

    fn next(&mut self) -> Option<&'a [u8]> {
        if self.left == 0 {
            return None;
        }
        let end = self.at + item_size(self.bytes, self.at);
        let tuple = &self.bytes[self.at..end];
        self.at = end;
        self.left -= 1;
        Some(tuple)
    }
}

/// The index tuples of a page that is restored, of the bytes of the right page of a B-tree split or
/// of a new root, in the order of the bytes: the last of them gets place 1. `None` where the bytes
/// aren't index tuples and nothing else. Each has its size rounded up to 8 bytes.
#[tactic(auto, unfolding(crate::specs::IndexTuples::restored_tuples_of))]
pub fn restored_tuples(bytes: &[u8]) -> Option<IndexTuples<'_>>
    ensures value { result ≡ restored_tuples_of bytes.now }
{
    let left = count_tuples(bytes)?;
    Some(IndexTuples { bytes, at: 0, left })
}
