//! The places of tuples on a page.

ghost use Rattle.std.specs.Prelude.{◌≡◌, IfSome, length, slice_get};
ghost use Rattle.record_layouts.specs.Items.{places_of};

use layout::u16_at;
use std::marker::Model;

/// The places of tuples on a page, counted from 1: contracts see their list.
#[derive(Drop)]
pub struct Places<'a> {
    bytes: &'a [u8],
    count: u16,
    in_turn: bool,
}

impl<'a> Model for Places<'a> {
    ghost use Rattle.std.specs.Prelude.{List, ℕ, length, true, false, ◌≡◌, ◌≤◌, ◌*◌, ◌<◌, ◌^◌};
    ghost use Rattle.record_layouts.specs.Items.{listed_places};

    ghost Value = { List ℕ };

    ghost view = { λ p. listed_places p.in_turn p.count p.bytes.now };

    ghost invariant = { λ p. (p.in_turn ≡ false → 2 * p.count ≤ length p.bytes.now) × (p.count < 2 ^ 16) };
}

impl<'a> Places<'a> {
    /// So many places: 1, 2 and so on where they are `in_turn`, else those at the front of some bytes.
    #[tactic(auto, using(crate::proofs::ItemLemmas::length_places))]
    pub(crate) fn read(in_turn: bool, count: u16, bytes: &'a [u8]) -> Option<Places<'a>>
        ensures value { result ≡ places_of in_turn count bytes.now }
        ensures count { IfSome result (λ places. length places ≡ count) }
    {
        if !in_turn && bytes.len() < 2 * usize::from(count) {
            return None;
        }
        Some(Places {
            bytes,
            count,
            in_turn,
        })
    }

    /// How many places there are.
    #[tactic(auto, using(crate::proofs::ItemLemmas::length_places))]
    pub fn len(&self) -> usize
        ensures { result ≡ length self.now }
    {
        usize::from(self.count)
    }

    /// The place of the tuple at an index from 0 on, or `None` at `len` and past it.
    #[tactic(auto, using(crate::proofs::ItemLemmas::no_place, crate::proofs::ItemLemmas::listed_place, crate::proofs::ItemLemmas::place_in_turn))]
    pub fn get(&self, at: usize) -> Option<u16>
        ensures { result ≡ slice_get self.now at }
    {
        if usize::from(self.count) <= at {
            return None;
        }
        if self.in_turn {
            return Some(at as u16 + 1);
        }
        Some(u16_at(self.bytes, 2 * at))
    }
}
