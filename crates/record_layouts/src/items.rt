//! Lists in a layout, read off the record's bytes by index.

ghost use Rattle.std.specs.Prelude.{◌≡◌, ◌≤◌, ◌*◌, ◌/◌, length, min, slice_get};
ghost use Rattle.record_layouts.specs.Items.{item_list, item_prefix, items};

use crate::bytes::{Bytes, Read, count};
use std::marker::{Model, PhantomData};

/// What a list in a layout may hold: items of one size.
pub trait Item: Drop {
    ghost use Rattle.std.specs.Prelude.{◌≡◌, ◌≤◌, ◌+◌, ◌<◌, ℕ, List, length};

    /// How many bytes an item has.
    ghost width: { ℕ };

    /// The item at an offset.
    ghost item: { ℕ → List ℕ → Self };

    /// How many bytes an item has.
    fn size() -> usize
        ensures value { result ≡ width }
        ensures some { 0 < result }
        ensures few { result < 17 };

    /// The item at an offset.
    fn read_at(bytes: &[u8], at: usize) -> Self
        requires { at + width ≤ length bytes.now }
        ensures { result ≡ item at bytes.now };
}

/// A list in a layout, of which nothing is copied: contracts see the list of its items.
#[derive(Drop)]
pub struct Items<'a, T: Item> {
    bytes: &'a [u8],
    count: usize,
    of: PhantomData<T>,
}

impl<'a, T: Item> Model for Items<'a, T> {
    ghost use Rattle.std.specs.Prelude.{List, ℕ, length, ◌≤◌, ◌*◌};
    ghost use Rattle.record_layouts.specs.Items.{items};

    ghost Value = { List T };

    ghost view = { λ list. items T.width T.item list.count list.bytes.now };

    ghost invariant = { λ list. T.width * list.count ≤ length list.bytes.now };
}

impl<'a, T: Item> Items<'a, T> {
    /// So many items from the front of some bytes.
    pub(crate) fn new(bytes: &'a [u8], count: usize) -> Items<'a, T>
        requires { T.width * count ≤ length bytes.now }
        ensures { result ≡ items T.width T.item count bytes.now }
    {
        Items {
            bytes,
            count,
            of: PhantomData,
        }
    }

    /// As many items as the count before them says.
    pub(crate) fn read(bytes: &'a [u8]) -> Option<Read<'a, Items<'a, T>>>
        ensures { result ≡ item_list T.width T.item bytes.now }
    {
        let counted = count(bytes)?;
        let behind = counted.rest.slice();
        let size = T::size() * counted.value as usize;
        if behind.len() < size {
            return None;
        }
        let value = Items::new(behind, counted.value as usize);
        let rest = Bytes::new(&behind[size..]);
        Some(Read { value, rest })
    }

    /// As many items of those that the count before them says as are there.
    pub(crate) fn prefix(bytes: &'a [u8]) -> Items<'a, T>
        ensures { result ≡ item_prefix T.width T.item bytes.now }
    {
        match count(bytes) {
            None => Items::new(bytes, 0),
            Some(counted) => Items::first(counted.rest.slice(), counted.value as usize),
        }
    }

    /// So many items, or as many as are there.
    fn first(bytes: &'a [u8], count: usize) -> Items<'a, T>
        ensures { result ≡ items T.width T.item (min count (length bytes.now / T.width)) bytes.now }
    {
        Items::new(bytes, count.min(bytes.len() / T::size()))
    }

    /// How many items there are.
    #[tactic(auto, using(crate::proofs::ItemLemmas::length_items))]
    pub fn len(&self) -> usize
        ensures { result ≡ length self.now }
    {
        self.count
    }

    /// The item at a place from 0 on, or `None` at `len` and past it.
    #[tactic(auto, using(crate::proofs::ItemLemmas::none_past, crate::proofs::ItemLemmas::some_below))]
    pub fn get(&self, at: usize) -> Option<T>
        ensures { result ≡ slice_get self.now at }
    {
        if self.count <= at {
            return None;
        }
        Some(T::read_at(self.bytes, T::size() * at))
    }
}
