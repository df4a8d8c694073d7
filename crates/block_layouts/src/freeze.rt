//! The plans of a FREEZE_PAGE.

ghost use Rattle.std.specs.Prelude.{◌≡◌, ◌≤◌, ◌+◌, ◌*◌, length};
ghost use Rattle.std.specs.Iterator.{YieldsFirst, item_count};
ghost use Rattle.block_layouts.specs.Freeze.{first_plan, freeze_plans_of, place_count, places_end, plans_from};

use crate::places::{PLACE_SIZE, Places};
use crate::plan::FreezePlan;
use layout::{u8_at, u16_at, u32_at};
use std::alloc::AllocError;
use std::marker::Model;

/// The bytes of a plan (`xl_heap_freeze_plan`).
const PLAN_SIZE: usize = 12;

/// Plans with their places, which are read off the record's bytes one by one. Contracts see the
/// list of those still to come.
#[derive(Debug, Drop)]
pub struct FreezePlans<'a> {
    bytes: &'a [u8],
    plan: usize,
    places: usize,
    left: usize,
}

impl<'a> Model for FreezePlans<'a> {
    ghost use Rattle.std.specs.Prelude.{List};
    ghost use Rattle.block_layouts.specs.declared.plan.FreezePlan.{FreezePlan};
    ghost use Rattle.block_layouts.specs.Freeze.{plans_from, HasPlans};

    ghost Value = { List FreezePlan };

    ghost view = { λ p. plans_from p.left p.bytes.now (record { plan = p.plan; places = p.places }) };

    ghost invariant = { λ p. HasPlans p.left p.bytes.now (record { plan = p.plan; places = p.places }) };
}

/// How many places the plan at an offset has.
fn place_count(bytes: &[u8], plan: usize) -> usize
    requires room { plan + 12 ≤ length bytes.now }
    ensures value { result ≡ place_count bytes.now plan }
    ensures most { result ≤ 65535 }
{
    usize::from(u16_at(bytes, plan + 10))
}

/// Where the places of the last plan end.
fn places_end(bytes: &[u8], count: usize) -> usize
    requires room { 12 * count ≤ length bytes.now }
    requires few { count ≤ 65535 }
    ensures value { result ≡ places_end count bytes.now (first_plan count) }
{
    let mut places = PLAN_SIZE * count;
    for i in 0..count {
        places += PLACE_SIZE * place_count(bytes, PLAN_SIZE * i);
    }
    places
}

impl<'a> FreezePlans<'a> {
    /// How many are still to come.
    pub fn len(&self) -> usize
        ensures value { result ≡ length self.now }
    {
        self.left
    }
}

/// A clone has the same still to come. It takes no memory, so it doesn't fail.
impl<'a> Clone for FreezePlans<'a> {
    ghost use Rattle.std.specs.Prelude.{◌≡◌, ⊤};

    ghost is_clone = { λ old new. new ≡ old };

    ghost is_infallible = { λ _. ⊤ };

    fn clone(&self) -> Result<FreezePlans<'a>, AllocError> {
        Ok(FreezePlans {
            bytes: self.bytes,
            plan: self.plan,
            places: self.places,
            left: self.left,
        })
    }
}

impl<'a> Iterator for FreezePlans<'a> {
    type Item = FreezePlan<'a>;

    ghost next_gives = { YieldsFirst (λ rest. rest) };

    ghost remaining = { item_count (λ rest. rest) };

    fn next(&mut self) -> Option<FreezePlan<'a>> {
        if self.left == 0 {
            return None;
        }
        let bytes = self.bytes;
        let plan = self.plan;
        let count = place_count(bytes, plan);
        let places = Places::new(bytes, self.places, count);
        self.plan += PLAN_SIZE;
        self.places += PLACE_SIZE * count;
        self.left -= 1;
        Some(FreezePlan {
            xmax: u32_at(bytes, plan),
            infomask2: u16_at(bytes, plan + 4),
            infomask: u16_at(bytes, plan + 6),
            flags: u8_at(bytes, plan + 8),
            places,
        })
    }
}

/// The plans of a FREEZE_PAGE, of the bytes of its block 0, with the number of plans that its main
/// bytes tell, or `None` where the bytes are fewer than the plans and all their places.
#[tactic(auto, unfolding(crate::specs::Freeze::freeze_plans_of))]
pub fn freeze_plans(bytes: &[u8], count: u16) -> Option<FreezePlans<'_>>
    ensures value { result ≡ freeze_plans_of count bytes.now }
{
    let left = usize::from(count);
    let places = PLAN_SIZE * left;
    if bytes.len() < places || bytes.len() < places_end(bytes, left) {
        return None;
    }
    Some(FreezePlans {
        bytes,
        plan: 0,
        places,
        left,
    })
}
