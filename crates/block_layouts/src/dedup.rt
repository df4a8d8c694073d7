//! The intervals of a DEDUP.

ghost use Rattle.std.specs.Prelude.{◌≡◌, ◌≤◌, ◌+◌, length, slice_get};
ghost use Rattle.std.specs.Iterator.{YieldsFirst, item_count};
ghost use Rattle.block_layouts.specs.Dedup.{dedup_intervals_of, interval_at};

use layout::u16_at;
use std::alloc::AllocError;
use std::marker::Model;

/// The bytes of an interval (`BTDedupInterval`).
const INTERVAL_SIZE: usize = 4;

/// Tuples of a page, one behind another, of which a DEDUP makes one.
#[derive(Clone, Copy, Debug)]
pub struct Interval {
    /// The place of the first, counted from 1 (`baseoff`).
    pub base: u16,
    /// How many they are (`nitems`).
    pub count: u16,
}

/// Intervals, which are read off the record's bytes one by one. Contracts see the list of those
/// still to come.
#[derive(Debug, Drop)]
pub struct Intervals<'a> {
    bytes: &'a [u8],
    at: usize,
    left: usize,
}

impl<'a> Model for Intervals<'a> {
    ghost use Rattle.std.specs.Prelude.{◌≤◌, ◌+◌, ◌*◌, List, length};
    ghost use Rattle.block_layouts.specs.declared.dedup.Interval.{Interval};
    ghost use Rattle.block_layouts.specs.Dedup.{intervals_from};

    ghost Value = { List Interval };

    ghost view = { λ p. intervals_from p.left p.bytes.now p.at };

    ghost invariant = { λ p. p.at + 4 * p.left ≤ length p.bytes.now };
}

/// The interval at an offset.
fn interval_at(bytes: &[u8], at: usize) -> Interval
    requires room { at + 4 ≤ length bytes.now }
    ensures value { result ≡ interval_at bytes.now at }
{
    Interval {
        base: u16_at(bytes, at),
        count: u16_at(bytes, at + 2),
    }
}

impl<'a> Intervals<'a> {
    /// How many are still to come.
    pub fn len(&self) -> usize
        ensures value { result ≡ length self.now }
    {
        self.left
    }

    /// The one at an index from 0 on, or `None` at `len` and past it.
    pub fn get(&self, at: usize) -> Option<Interval>
        ensures value { result ≡ slice_get self.now at }
    {
        if self.left <= at {
            return None;
        }
        Some(interval_at(self.bytes, self.at + INTERVAL_SIZE * at))
    }
}

/// A clone has the same still to come. It takes no memory, so it doesn't fail.
impl<'a> Clone for Intervals<'a> {
    ghost use Rattle.std.specs.Prelude.{◌≡◌, ⊤};

    ghost is_clone = { λ old new. new ≡ old };

    ghost is_infallible = { λ _. ⊤ };

    fn clone(&self) -> Result<Intervals<'a>, AllocError> {
        Ok(Intervals {
            bytes: self.bytes,
            at: self.at,
            left: self.left,
        })
    }
}

impl<'a> Iterator for Intervals<'a> {
    type Item = Interval;

    ghost next_gives = { YieldsFirst (λ rest. rest) };

    ghost remaining = { item_count (λ rest. rest) };

    fn next(&mut self) -> Option<Interval> {
        if self.left == 0 {
            return None;
        }
        let interval = interval_at(self.bytes, self.at);
        self.at += INTERVAL_SIZE;
        self.left -= 1;
        Some(interval)
    }
}

/// The intervals of a DEDUP, of the bytes of its block 0, with the number of them that its main bytes
/// tell, or `None` where there are fewer. What stands behind them is ignored.
pub fn dedup_intervals(bytes: &[u8], count: u16) -> Option<Intervals<'_>>
    ensures value { result ≡ dedup_intervals_of count bytes.now }
{
    let left = usize::from(count);
    if bytes.len() < INTERVAL_SIZE * left {
        return None;
    }
    Some(Intervals { bytes, at: 0, left })
}
