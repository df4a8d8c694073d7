ghost use Rattle.std.specs.Prelude.{ℕ, ◌≡◌, ◌+◌, ◌-◌, ◌*◌, ◌<◌, ◌≤◌, ◌==◌, length, IsTrue, None};
ghost use Rattle.page_layout.specs.Bytes.{up8};
ghost use Rattle.page_layout.specs.Page.{count, pd_lower, pd_upper, pd_special, Head, IsFormed, lp_off, lp_len, ItemIn};
ghost use Rattle.page_layout.specs.Deletes.{are_places, without_line, without_lines, raised, moved_line, moved_lines, without_item, without_items, is_apart, apart_below, all_apart, places_refusal, deleted, packed_if_room, closed_up};
ghost use Rattle.page_layout.specs.Edits.{Answers};

use crate::bytes::{move_bytes, put_u16};
use crate::line::{Pointer, pointer_at, put_pointer};
use crate::pack::{has_room, put_all_packed};
use crate::refusal::PageRefusal;
use crate::shape::{bounds_of, line_count, well_formed};

// Whether these are rising places of the first `lines` lines.
#[tactic(auto, using(crate::proofs::PlacesLemmas::places_from))]
fn are_places(lines: usize, places: &[u16]) -> bool
    ensures { result ≡ are_places lines 0 places.now }
{
    let mut before = 0;
    for place in places {
        let at = *place as usize;
        if at <= before || at > lines {
            return false;
        }
        before = at;
    }
    true
}

/// Why these places can't be deleted, want of room aside, if they can't.
pub fn places_refusal(page: &[u8], places: &[u16]) -> Option<PageRefusal>
    requires { length page.now ≡ 8192 }
    ensures value { result ≡ places_refusal page.now places.now }
    ensures formed { result ≡ None → IsFormed page.now }
    ensures places { result ≡ None → IsTrue (are_places (count page.now) 0 places.now) }
{
    if !well_formed(page) {
        return Some(PageRefusal::BadPage);
    }
    if are_places(line_count(page), places) {
        None
    } else {
        Some(PageRefusal::BadPlace)
    }
}

// Takes out the line at index `k`; later lines move down.
fn take_line(page: &mut [u8], k: usize)
    requires size { length page.old ≡ 8192 }
    requires head { Head page.old }
    requires there { k < count page.old }
    ensures { page.new ≡ without_line page.old k }
{
    let lower = bounds_of(page).lower;
    move_bytes(page, 28 + 4 * k, lower - (28 + 4 * k), 24 + 4 * k);
    put_u16(page, 12, lower - 4);
}

// Takes out the lines at these places, the last one first.
fn take_lines(page: &mut [u8], places: &[u16])
    requires formed { IsFormed page.old }
    requires places { IsTrue (are_places (count page.old) 0 places.now) }
    ensures lines { page.new ≡ without_lines page.old places.now }
    ensures formed { IsFormed page.new }
{
    let mut i = places.len();
    while i > 0 {
        i -= 1;
        take_line(page, places[i] as usize - 1);
    }
}

/// Moves the bytes from upper up to `at` up by `size`, and upper with them.
pub fn raise(page: &mut [u8], at: usize, size: usize)
    requires size { length page.old ≡ 8192 }
    requires above { pd_upper page.old ≤ at }
    requires below { at + size ≤ 8192 }
    ensures { page.new ≡ raised page.old at size }
{
    let upper = bounds_of(page).upper;
    move_bytes(page, upper, at - upper, upper + size);
    put_u16(page, 14, upper + size);
}

// The line at index `n` follows its item, where that lies below `at`.
fn move_line(page: &mut [u8], at: usize, size: usize, n: usize)
    requires size { length page.old ≡ 8192 }
    requires there { 28 + 4 * n ≤ 8192 }
    requires below { at + size ≤ 32768 }
    ensures { page.new ≡ moved_line at size n page.old }
{
    let line = pointer_at(page, n);
    if 0 < line.len && line.off < at {
        let moved = Pointer {
            off: line.off + size,
            flags: line.flags,
            len: line.len,
        };
        put_pointer(page, n, moved);
    }
}

/// The first `lines` lines follow their items up by `size`, where those lie below `at`.
pub fn move_lines(page: &mut [u8], at: usize, size: usize, lines: usize)
    requires size { length page.old ≡ 8192 }
    requires there { 24 + 4 * lines ≤ 8192 }
    requires below { at + size ≤ 32768 }
    ensures { page.new ≡ moved_lines page.old at size lines }
{
    for n in 0..lines {
        move_line(page, at, size, n);
    }
}

// Moves the bytes below line `k`'s item over it, and the lines that point there.
#[tactic(auto, using(crate::proofs::ShapeLemmas::held_in))]
fn close_up(page: &mut [u8], k: usize)
    requires formed { IsFormed page.old }
    requires there { k < count page.old }
    ensures { page.new ≡ closed_up page.old k }
{
    let line = pointer_at(page, k);
    if line.len == 0 {
        return;
    }
    let size = (line.len + 7) / 8 * 8;
    let lines = line_count(page);
    raise(page, line.off, size);
    move_lines(page, line.off, size, lines);
}

// Takes out the line at index `k` with its item; the bytes below the item move up.
fn take_item(page: &mut [u8], k: usize)
    requires formed { IsFormed page.old }
    requires there { k < count page.old }
    ensures { page.new ≡ without_item page.old k }
{
    close_up(page, k);
    take_line(page, k);
}

// Whether the items of lines `j` and `k`, lengths rounded up to 8, don't overlap.
fn is_apart(page: &[u8], j: usize, k: usize) -> bool
    requires size { length page.now ≡ 8192 }
    requires first { 28 + 4 * j ≤ 8192 }
    requires second { 28 + 4 * k ≤ 8192 }
    ensures { result ≡ is_apart page.now j k }
{
    let a = pointer_at(page, j);
    let b = pointer_at(page, k);
    a.len == 0
        || b.len == 0
        || a.off + (a.len + 7) / 8 * 8 <= b.off
        || b.off + (b.len + 7) / 8 * 8 <= a.off
}

// Whether the item of line `k` overlaps no item of a line before it.
#[tactic(auto, using(crate::proofs::ApartLemmas::not_apart_below))]
fn apart_below(page: &[u8], k: usize) -> bool
    requires size { length page.now ≡ 8192 }
    requires there { 28 + 4 * k ≤ 8192 }
    ensures { result ≡ apart_below page.now k k }
{
    for j in 0..k {
        if !is_apart(page, j, k) {
            return false;
        }
    }
    true
}

/// Whether no items of the page, lengths rounded up to 8, overlap.
#[tactic(auto, using(crate::proofs::ApartLemmas::not_all_apart))]
pub fn all_apart(page: &[u8]) -> bool
    requires size { length page.now ≡ 8192 }
    requires head { Head page.now }
    ensures { result ≡ all_apart page.now (count page.now) }
{
    for k in 0..line_count(page) {
        if !apart_below(page, k) {
            return false;
        }
    }
    true
}

// Takes out one or two lines with their items, the last one first.
fn take_items(page: &mut [u8], places: &[u16])
    requires formed { IsFormed page.old }
    requires places { IsTrue (are_places (count page.old) 0 places.now) }
    requires few { length places.now ≤ 2 }
    requires apart { IsTrue (all_apart page.old (count page.old)) }
    ensures { page.new ≡ without_items page.old places.now }
{
    match places {
        [only] => take_item(page, *only as usize - 1),
        [first, last] => {
            take_item(page, *last as usize - 1);
            take_item(page, *first as usize - 1);
        }
        _ => {}
    }
}

// Takes the lines out and packs the page; refused, it stays as it was.
fn take_and_pack(page: &mut [u8], places: &[u16]) -> Result<(), PageRefusal>
    requires formed { IsFormed page.old }
    requires places { IsTrue (are_places (count page.old) 0 places.now) }
    ensures { Answers (packed_if_room (without_lines page.old places.now))
        page.old result page.new }
{
    let mut kept = [0u8; 8192];
    kept.copy_from_slice(page);
    take_lines(&mut kept, places);
    if !has_room(&kept) {
        return Err(PageRefusal::NoRoom);
    }
    put_all_packed(&mut kept);
    page.copy_from_slice(&kept);
    Ok(())
}

/// Deletes places that `places_refusal` let through.
pub fn put_deleted(page: &mut [u8], places: &[u16]) -> Result<(), PageRefusal>
    requires formed { IsFormed page.old }
    requires places { IsTrue (are_places (count page.old) 0 places.now) }
    ensures { Answers (deleted page.old places.now) page.old result page.new }
{
    if places.len() <= 2 && all_apart(page) {
        take_items(page, places);
        Ok(())
    } else {
        take_and_pack(page, places)
    }
}
