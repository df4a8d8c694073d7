ghost use Rattle.std.specs.Prelude.{ℕ, ◌≡◌, ◌≤◌, length, IsTrue};
ghost use Rattle.page_layout.specs.Page.{IsFormed};
ghost use Rattle.redo_steps.specs.Redo.{Makes};
ghost use Rattle.heap_tuples.specs.Heap.{has_tuple, with_tuple, on_tuple};
ghost use Rattle.heap_pages.specs.Freeze.{frozen_xvac, with_xvac, frozen_tuple, freeze_places, freeze_page};

use block_layouts::{FreezePlan, FreezePlans};
use heap_tuples::flags::has_bit;
use heap_tuples::heap::{has_tuple, tuple_span};
use page_layout::RedoWhy;
use page_layout::bytes::put_u16;
use redo_steps::tuple::{put_u32, put_xmax};

/// `XLH_FREEZE_XVAC`.
const FREEZE_XVAC: u8 = 2;

/// `XLH_INVALID_XVAC`.
const INVALID_XVAC: u8 = 4;

// The frozen transaction as `t_xvac`, where the flags say so.
fn freeze_xvac(tuple: &mut [u8], flags: u8)
    requires { 23 ≤ length tuple.old }
    ensures value { tuple.new ≡ frozen_xvac flags tuple.old }
    ensures size { length tuple.new ≡ length tuple.old }
{
    if has_bit(flags, FREEZE_XVAC) {
        put_u32(tuple, 8, 2);
    }
}

// `t_xvac` as the flags tell it.
fn put_xvac(tuple: &mut [u8], flags: u8)
    requires { 23 ≤ length tuple.old }
    ensures value { tuple.new ≡ with_xvac flags tuple.old }
    ensures size { length tuple.new ≡ length tuple.old }
{
    freeze_xvac(tuple, flags);
    if has_bit(flags, INVALID_XVAC) {
        put_u32(tuple, 8, 0);
    }
}

fn freeze_tuple(tuple: &mut [u8], plan: &FreezePlan<'_>)
    requires { 23 ≤ length tuple.old }
    ensures value { tuple.new ≡ frozen_tuple plan.now tuple.old }
    ensures size { length tuple.new ≡ length tuple.old }
{
    put_xmax(tuple, plan.xmax);
    put_xvac(tuple, plan.flags);
    put_u16(tuple, 20, plan.infomask as usize);
    put_u16(tuple, 18, plan.infomask2 as usize);
}

fn freeze_on_page(page: &mut [u8], place: u16, plan: &FreezePlan<'_>)
    requires formed { IsFormed page.old }
    requires tuple { IsTrue (has_tuple page.old place) }
    ensures value { page.new ≡ with_tuple place (frozen_tuple plan.now) page.old }
    ensures formed { IsFormed page.new }
{
    let at = tuple_span(page, place);
    freeze_tuple(&mut page[at.start..at.end], plan);
}

// Freezes the tuple at a place.
fn freeze_at(page: &mut [u8], place: u16, plan: &FreezePlan<'_>) -> Result<(), RedoWhy>
    requires { IsFormed page.old }
    ensures exact { Makes (on_tuple place (frozen_tuple plan.now) page.old) result page.new }
    ensures formed { IsFormed page.new }
{
    if !has_tuple(page, place) {
        return Err(RedoWhy::Place);
    }
    freeze_on_page(page, place, plan);
    Ok(())
}

// Freezes the tuples of a plan.
#[tactic(auto, using(crate::proofs::PlaceLemmas::next_place, crate::proofs::PlaceLemmas::no_place))]
fn freeze_places(page: &mut [u8], plan: &FreezePlan<'_>) -> Result<(), RedoWhy>
    requires { IsFormed page.old }
    ensures exact { Makes (freeze_places plan.now plan.now.places page.old) result page.new }
    ensures formed { IsFormed page.new }
{
    for i in 0..plan.places.len() {
        let Some(place) = plan.places.get(i) else {
            return Ok(());
        };
        freeze_at(page, place, plan)?;
    }
    Ok(())
}

/// Redoes FREEZE_PAGE on a heap page, plan by plan. Answers `Place` where a place has no tuple; what
/// a refused call leaves is open.
pub fn redo_freeze(page: &mut [u8], mut plans: FreezePlans<'_>) -> Result<(), RedoWhy>
    requires { IsFormed page.old }
    ensures exact { Makes (freeze_page plans.entry page.old) result page.new }
{
    while let Some(plan) = plans.next() {
        freeze_places(page, &plan)?;
    }
    Ok(())
}
