//! Posting lists that become shorter.

ghost use Rattle.std.specs.Prelude.{◌≡◌, ◌≤◌, ◌+◌, ◌*◌, IfSome, length};
ghost use Rattle.std.specs.Iterator.{YieldsFirst, item_count};
ghost use Rattle.layout_readers.specs.Whole.{whole};
ghost use Rattle.block_layouts.specs.Shortened.{lists_end, updates_of};

use crate::places::{PLACE_SIZE, Places};
use layout::u16_at;
use std::alloc::AllocError;
use std::marker::Model;

/// The bytes of the number of indexes that stands before them (`SizeOfBtreeUpdate`).
const COUNT_SIZE: usize = 2;

/// A posting list that becomes shorter (`xl_btree_update`).
#[derive(Debug, Drop)]
pub struct Update<'a> {
    /// The place of its tuple, counted from 1.
    pub place: u16,
    /// The indexes of the tids that go, counted from 0.
    pub gone: Places<'a>,
}

/// Updates with their indexes, which are read off the record's bytes one by one. Contracts see the
/// list of those still to come.
#[derive(Debug, Drop)]
pub struct Updates<'a> {
    bytes: &'a [u8],
    place: usize,
    list: usize,
    left: usize,
}

impl<'a> Model for Updates<'a> {
    ghost use Rattle.std.specs.Prelude.{List};
    ghost use Rattle.block_layouts.specs.declared.shortened.Update.{Update};
    ghost use Rattle.block_layouts.specs.Shortened.{HasUpdates, updates_from};

    ghost Value = { List Update };

    ghost view = { λ p. updates_from p.left p.bytes.now (record { place = p.place; list = p.list }) };

    ghost invariant = { λ p. HasUpdates p.left p.bytes.now (record { place = p.place; list = p.list }) };
}

/// The offset behind so many lists, the first at an offset, or `None` where the bytes end before it.
fn lists_end(bytes: &[u8], first: usize, count: usize) -> Option<usize>
    requires low { first ≤ 262140 }
    ensures value { result ≡ whole (lists_end count bytes.now first) bytes.now
        (lists_end count bytes.now first) }
{
    let mut end = first;
    for _i in 0..count {
        if bytes.len() < end + COUNT_SIZE {
            return None;
        }
        end += COUNT_SIZE + PLACE_SIZE * usize::from(u16_at(bytes, end));
    }
    if bytes.len() < end {
        return None;
    }
    Some(end)
}

impl<'a> Updates<'a> {
    /// So many updates behind so many deleted places, or `None` where the bytes end before the last
    /// list.
    pub(crate) fn behind(bytes: &'a [u8], deleted: usize, left: usize) -> Option<Updates<'a>>
        requires few { deleted + left ≤ 131070 }
        ensures value { result ≡ updates_of deleted left bytes.now }
        ensures room { IfSome result (λ _. 2 * deleted ≤ length bytes.now) }
    {
        let place = PLACE_SIZE * deleted;
        let list = place + PLACE_SIZE * left;
        lists_end(bytes, list, left)?;
        Some(Updates {
            bytes,
            place,
            list,
            left,
        })
    }

    /// How many are still to come.
    pub fn len(&self) -> usize
        ensures value { result ≡ length self.now }
    {
        self.left
    }
}

/// A clone has the same still to come. It takes no memory, so it doesn't fail.
impl<'a> Clone for Updates<'a> {
    ghost use Rattle.std.specs.Prelude.{◌≡◌, ⊤};

    ghost is_clone = { λ old new. new ≡ old };

    ghost is_infallible = { λ _. ⊤ };

    fn clone(&self) -> Result<Updates<'a>, AllocError> {
        Ok(Updates {
            bytes: self.bytes,
            place: self.place,
            list: self.list,
            left: self.left,
        })
    }
}

impl<'a> Iterator for Updates<'a> {
    type Item = Update<'a>;

    ghost next_gives = { YieldsFirst (λ rest. rest) };

    ghost remaining = { item_count (λ rest. rest) };

    fn next(&mut self) -> Option<Update<'a>> {
        if self.left == 0 {
            return None;
        }
        let bytes = self.bytes;
        let count = usize::from(u16_at(bytes, self.list));
        let gone = Places::new(bytes, self.list + COUNT_SIZE, count);
        let place = u16_at(bytes, self.place);
        self.place += PLACE_SIZE;
        self.list += COUNT_SIZE + PLACE_SIZE * count;
        self.left -= 1;
        Some(Update { place, gone })
    }
}
