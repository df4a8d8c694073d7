//! Pairs of places.

ghost use Rattle.std.specs.Prelude.{◌≡◌, ◌≤◌, ◌+◌, ◌*◌, length, slice_get};
ghost use Rattle.std.specs.Iterator.{YieldsFirst, item_count};
ghost use Rattle.block_layouts.specs.Redirects.{redirect_at, redirects_from};

use layout::u16_at;
use std::alloc::AllocError;
use std::marker::Model;

/// The bytes of a pair.
pub(crate) const REDIRECT_SIZE: usize = 4;

/// A line that becomes a redirect, and the line that it leads to.
#[derive(Clone, Copy, Debug, PartialEq, Eq)]
pub struct Redirect {
    /// The place of the line, counted from 1.
    pub from: u16,
    /// The place of the line that it leads to.
    pub to: u16,
}

/// Pairs of places, which are read off the record's bytes one by one. Contracts see the list of
/// those still to come.
#[derive(Debug, Drop)]
pub struct Redirects<'a> {
    bytes: &'a [u8],
    at: usize,
    left: usize,
}

impl<'a> Model for Redirects<'a> {
    ghost use Rattle.std.specs.Prelude.{◌≤◌, ◌+◌, ◌*◌, List, length};
    ghost use Rattle.block_layouts.specs.declared.redirects.Redirect.{Redirect};
    ghost use Rattle.block_layouts.specs.Redirects.{redirects_from};

    ghost Value = { List Redirect };

    ghost view = { λ p. redirects_from p.left p.bytes.now p.at };

    ghost invariant = { λ p. p.at + 4 * p.left ≤ length p.bytes.now };
}

/// The pair at an offset.
fn pair_at(bytes: &[u8], at: usize) -> Redirect
    requires room { at + 4 ≤ length bytes.now }
    ensures value { result ≡ redirect_at bytes.now at }
{
    Redirect {
        from: u16_at(bytes, at),
        to: u16_at(bytes, at + 2),
    }
}

impl<'a> Redirects<'a> {
    /// So many pairs, the first at an offset.
    pub(crate) fn new(bytes: &'a [u8], at: usize, left: usize) -> Redirects<'a>
        requires room { at + 4 * left ≤ length bytes.now }
        ensures value { result ≡ redirects_from left bytes.now at }
    {
        Redirects { bytes, at, left }
    }

    /// How many are still to come.
    pub fn len(&self) -> usize
        ensures value { result ≡ length self.now }
    {
        self.left
    }

    /// The one at an index from 0 on, or `None` at `len` and past it.
    pub fn get(&self, at: usize) -> Option<Redirect>
        ensures value { result ≡ slice_get self.now at }
    {
        if self.left <= at {
            return None;
        }
        Some(pair_at(self.bytes, self.at + REDIRECT_SIZE * at))
    }
}

/// A clone has the same still to come. It takes no memory, so it doesn't fail.
impl<'a> Clone for Redirects<'a> {
    ghost use Rattle.std.specs.Prelude.{◌≡◌, ⊤};

    ghost is_clone = { λ old new. new ≡ old };

    ghost is_infallible = { λ _. ⊤ };

    fn clone(&self) -> Result<Redirects<'a>, AllocError> {
        Ok(Redirects {
            bytes: self.bytes,
            at: self.at,
            left: self.left,
        })
    }
}

impl<'a> Iterator for Redirects<'a> {
    type Item = Redirect;

    ghost next_gives = { YieldsFirst (λ rest. rest) };

    ghost remaining = { item_count (λ rest. rest) };

    fn next(&mut self) -> Option<Redirect> {
        if self.left == 0 {
            return None;
        }
        let pair = pair_at(self.bytes, self.at);
        self.at += REDIRECT_SIZE;
        self.left -= 1;
        Some(pair)
    }
}
