//! New tuples on a heap page.

ghost use Rattle.std.specs.Prelude.{ℕ, ◌≡◌, ◌+◌, ◌-◌, ◌*◌, ◌<◌, ◌≤◌, length, true, None, IsTrue};
ghost use Rattle.page_layout.specs.Edits.{added};
ghost use Rattle.page_layout.specs.Page.{IsFormed};
ghost use Rattle.redo_steps.specs.Redo.{Redoes};
ghost use Rattle.heap_tuples.specs.Put.{is_open, lower_with, has_room_at, filled, put_refusal, put_tuple};

use page_layout::RedoWhy;
use page_layout::add::put_new;
use page_layout::bytes::{clear, put_u16};
use page_layout::shape::{bounds_of, line_count};
use page_layout::trim::is_free;

/// The most tuples of a page (`MaxHeapTuplesPerPage`).
const MOST_TUPLES: usize = 291;

/// Whether a new tuple may come to a place.
pub fn is_open(page: &[u8], place: u16) -> bool
    requires { IsFormed page.now }
    ensures value { result ≡ is_open page.now place }
    ensures above { IsTrue result → 0 < place }
{
    let at = place as usize;
    if at == 0 || at > MOST_TUPLES {
        return false;
    }
    at > line_count(page) || is_free(page, at - 1)
}

// Where the lines end once there is one at this place.
fn lower_with(page: &[u8], place: u16) -> usize
    requires { IsFormed page.now }
    ensures value { result ≡ lower_with page.now place }
    ensures line { 24 + 4 * place ≤ result }
    ensures bound { result ≤ 270000 }
{
    let at = place as usize;
    if at > line_count(page) {
        24 + 4 * at
    } else {
        bounds_of(page).lower
    }
}

// Whether an item of this length fits beside the lines.
#[tactic(auto, using(crate::proofs::PutLemmas::too_long))]
fn has_room_at(page: &[u8], place: u16, len: usize) -> bool
    requires { IsFormed page.now }
    ensures value { result ≡ has_room_at page.now place len }
    ensures small { IsTrue result → len ≤ 8192 }
    ensures line { IsTrue result → 24 + 4 * place ≤ 8192 }
{
    let lower = lower_with(page, place);
    let upper = bounds_of(page).upper;
    if len > 8192 {
        return false;
    }
    lower + (len + 7) / 8 * 8 <= upper
}

/// Why no tuple of this length can come to a place, if it can't.
pub fn put_refusal(page: &[u8], place: u16, len: usize) -> Option<RedoWhy>
    requires { IsFormed page.now }
    ensures value { result ≡ put_refusal page.now place len }
    ensures small { result ≡ None → len ≤ 8192 }
    ensures above { result ≡ None → 0 < place }
    ensures line { result ≡ None → 24 + 4 * place ≤ 8192 }
{
    if !is_open(page, place) {
        return Some(RedoWhy::Place);
    }
    if has_room_at(page, place, len) {
        None
    } else {
        Some(RedoWhy::Room)
    }
}

// Adds unused lines up to before a place.
fn fill_lines(page: &mut [u8], place: u16)
    requires formed { IsFormed page.old }
    requires above { 0 < place }
    requires line { 24 + 4 * place ≤ 8192 }
    ensures { page.new ≡ filled page.old (place - 1) }
{
    let lines = line_count(page);
    let before = place as usize - 1;
    if before > lines {
        let lower = bounds_of(page).lower;
        clear(page, lower, 4 * (before - lines));
        put_u16(page, 12, 24 + 4 * before);
    }
}

// Adds a tuple that `put_refusal` let through.
fn put_open(page: &mut [u8], place: u16, tuple: &[u8])
    requires formed { IsFormed page.old }
    requires above { 0 < place }
    requires line { 24 + 4 * place ≤ 8192 }
    requires allowed { put_refusal page.old place (length tuple.now) ≡ None }
    ensures value { page.new ≡ added (filled page.old (place - 1)) tuple.now place true }
    ensures formed { IsFormed page.new }
{
    fill_lines(page, place);
    put_new(page, tuple, place, true);
}

/// Adds a tuple at a place, behind unused lines where lines before it aren't there. Answers `Place`
/// where the place is 0, above 291 or in use, then `Room`.
pub fn put_tuple(page: &mut [u8], place: u16, tuple: &[u8]) -> Result<(), RedoWhy>
    requires { IsFormed page.old }
    ensures exact { Redoes (put_tuple place tuple.now page.old) page.old result page.new }
    ensures formed { IsFormed page.new }
{
    if let Some(why) = put_refusal(page, place, tuple.len()) {
        return Err(why);
    }
    put_open(page, place, tuple);
    Ok(())
}
