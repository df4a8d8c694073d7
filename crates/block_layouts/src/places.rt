//! Places of lines.

ghost use Rattle.std.specs.Prelude.{◌≡◌, ◌≤◌, ◌+◌, ◌*◌, length, slice_get};
ghost use Rattle.std.specs.Iterator.{YieldsFirst, item_count};
ghost use Rattle.block_layouts.specs.Places.{first_places_of, places_from};

use layout::u16_at;
use std::alloc::AllocError;
use std::marker::Model;

/// The bytes of a place (`OffsetNumber`).
pub(crate) const PLACE_SIZE: usize = 2;

/// Places of lines on a page, counted from 1 (`OffsetNumber`), which are read off the record's
/// bytes one by one. Contracts see the list of those still to come.
#[derive(Debug, Drop)]
pub struct Places<'a> {
    bytes: &'a [u8],
    at: usize,
    left: usize,
}

impl<'a> Model for Places<'a> {
    ghost use Rattle.std.specs.Prelude.{◌≤◌, ◌+◌, ◌*◌, ℕ, List, length};
    ghost use Rattle.block_layouts.specs.Places.{places_from};

    ghost Value = { List ℕ };

    ghost view = { λ p. places_from p.left p.bytes.now p.at };

    ghost invariant = { λ p. p.at + 2 * p.left ≤ length p.bytes.now };
}

impl<'a> Places<'a> {
    /// So many places, the first at an offset.
    pub(crate) fn new(bytes: &'a [u8], at: usize, left: usize) -> Places<'a>
        requires room { at + 2 * left ≤ length bytes.now }
        ensures value { result ≡ places_from left bytes.now at }
    {
        Places { bytes, at, left }
    }

    /// How many are still to come.
    pub fn len(&self) -> usize
        ensures value { result ≡ length self.now }
    {
        self.left
    }

    /// The one at an index from 0 on, or `None` at `len` and past it.
    pub fn get(&self, at: usize) -> Option<u16>
        ensures value { result ≡ slice_get self.now at }
    {
        if self.left <= at {
            return None;
        }
        Some(u16_at(self.bytes, self.at + PLACE_SIZE * at))
    }
}

/// A clone has the same still to come. It takes no memory, so it doesn't fail.
impl<'a> Clone for Places<'a> {
    ghost use Rattle.std.specs.Prelude.{◌≡◌, ⊤};

    ghost is_clone = { λ old new. new ≡ old };

    ghost is_infallible = { λ _. ⊤ };

    fn clone(&self) -> Result<Places<'a>, AllocError> {
        Ok(Places {
            bytes: self.bytes,
            at: self.at,
            left: self.left,
        })
    }
}

impl<'a> Iterator for Places<'a> {
    type Item = u16;

    ghost next_gives = { YieldsFirst (λ rest. rest) };

    ghost remaining = { item_count (λ rest. rest) };

    fn next(&mut self) -> Option<u16> {
        if self.left == 0 {
            return None;
        }
        let place = u16_at(self.bytes, self.at);
        self.at += PLACE_SIZE;
        self.left -= 1;
        Some(place)
    }
}

/// So many places at the front of the bytes of a block, or `None` where there are fewer: the unused
/// places of a VACUUM of a heap page, the deleted ones of a DELETE or a VACUUM of a B-tree page.
pub fn first_places(bytes: &[u8], count: u16) -> Option<Places<'_>>
    ensures value { result ≡ first_places_of count bytes.now }
{
    let left = usize::from(count);
    if bytes.len() < PLACE_SIZE * left {
        return None;
    }
    Some(Places::new(bytes, 0, left))
}
