//! DEDUP.

ghost use Rattle.std.specs.Prelude.{ℕ, ◌≡◌, ◌+◌, ◌-◌, ◌<◌, ◌≤◌, ◌++◌, length, take, IsTrue, MatchOption};
ghost use Rattle.std.specs.List.{concat, flat_map, list_all};
ghost use Rattle.page_layout.specs.Page.{IsFormed, count, item};
ghost use Rattle.page_laws.specs.Btree.{made_anew, with_special};
ghost use Rattle.page_masks.specs.Law.{and_then};
ghost use Rattle.redo_steps.specs.Redo.{Makes};
ghost use Rattle.btree_pages.specs.Special.{without_garbage};
ghost use Rattle.btree_pages.specs.Items.{items, with_last, with_items};
ghost use Rattle.btree_pages.specs.Split.{first_data};
ghost use Rattle.btree_posting.specs.Tuple.{tids_of, has_tids, key_of, is_key};
ghost use Rattle.btree_posting.specs.Dedup.{merged, can_merge, can_merge_all, dedup_tuples, dedup_page};

use crate::form::{MOST, finish, lay};
use crate::tuple::{has_tids, is_key, key_of, tids_of};
use block_layouts::{Interval, Intervals};
use btree_pages::{begin_anew, first_data, item_of, put_last, put_lines_of, put_without_garbage};
use page_layout::RedoWhy;
use page_layout::shape::line_count;

// Whether the tuples from a place up to before another one have tids.
#[tactic(auto, using(btree_pages::proofs::ItemsLemmas::items_step, btree_pages::proofs::ItemsLemmas::items_none))]
fn all_have_tids(page: &[u8], start: usize, end: usize) -> bool
    requires formed { IsFormed page.now }
    requires above { 0 < start }
    requires there { end ≤ count page.now + 1 }
    ensures { result ≡ list_all has_tids (items page.now start end) }
{
    for place in start..end {
        if !has_tids(item_of(page, place - 1)) {
            return false;
        }
    }
    true
}

// Whether the tuples of an interval can be merged.
fn can_merge(page: &[u8], from: usize, interval: Interval) -> bool
    requires formed { IsFormed page.now }
    requires above { 0 < from }
    ensures { result ≡ can_merge page.now from interval }
{
    let base = usize::from(interval.base);
    let end = base + usize::from(interval.count);
    if base < from || interval.count < 2 || end > line_count(page) + 1 {
        return false;
    }
    all_have_tids(page, base, end) && is_key(key_of(item_of(page, base - 1)))
}

// Whether those of all intervals can.
fn can_merge_all(page: &[u8], intervals: &Intervals<'_>) -> bool
    requires { IsFormed page.now }
    ensures { result ≡ can_merge_all page.now (first_data page.now) intervals.now }
{
    let mut from = first_data(page);
    for i in 0..intervals.len() {
        let Some(interval) = intervals.get(i) else {
            return true;
        };
        if !can_merge(page, from, interval) {
            return false;
        }
        from = usize::from(interval.base) + usize::from(interval.count);
    }
    true
}

// Lays the tids of the tuples from a place up to before another one behind what is laid. Answers
// where they end, or `None` where they don't fit.
fn lay_tids(room: &mut [u8], at: usize, page: &[u8], start: usize, end: usize) -> Option<usize>
    requires room { length room.old ≡ 8192 }
    requires at { at ≤ 8184 }
    requires formed { IsFormed page.now }
    requires above { 0 < start }
    requires there { end ≤ count page.now + 1 }
    ensures { MatchOption result
        (8184 < at + length (concat (flat_map tids_of (items page.now start end))))
        (λ behind. (behind ≤ 8184) × (at ≤ behind)
        × (take behind room.new ≡ take at room.old ++ concat (flat_map tids_of (items page.now start end)))) }
{
    let mut behind = at;
    for place in start..end {
        let tids = tids_of(item_of(page, place - 1));
        if tids.len() > MOST - behind {
            return None;
        }
        behind = lay(room, behind, tids);
    }
    Some(behind)
}

// Adds the tuples of an interval as one. Answers `Room`.
fn put_merged(room: &mut [u8], page: &[u8], interval: Interval) -> Result<(), RedoWhy>
    requires room { IsFormed room.old }
    requires page { IsFormed page.now }
    requires above { 0 < interval.base }
    requires there { interval.base + interval.count ≤ count page.now + 1 }
    requires some { 0 < interval.count }
    requires key { IsTrue (is_key (key_of (item page.now (interval.base - 1)))) }
    ensures exact { Makes (with_last (merged page.now interval) room.old) result room.new }
    ensures formed { IsFormed room.new }
{
    let base = usize::from(interval.base);
    let mut tuple = [0u8; 8192];
    let key = key_of(item_of(page, base - 1));
    lay(&mut tuple, 0, key);
    let end = base + usize::from(interval.count);
    let Some(behind) = lay_tids(&mut tuple, key.len(), page, base, end) else {
        return Err(RedoWhy::Room);
    };
    let size = finish(&mut tuple, key.len(), behind);
    put_last(room, &tuple[..size])
}

// Adds the tuples before an interval, and then those of it as one. Answers `Room`.
fn put_next(room: &mut [u8], page: &[u8], from: usize, interval: Interval) -> Result<(), RedoWhy>
    requires room { IsFormed room.old }
    requires page { IsFormed page.now }
    requires above { 0 < from }
    requires can { IsTrue (can_merge page.now from interval) }
    ensures exact { Makes (and_then (with_items (items page.now from interval.base) room.old)
        (with_last (merged page.now interval))) result room.new }
    ensures formed { IsFormed room.new }
{
    put_lines_of(room, page, from, usize::from(interval.base))?;
    put_merged(room, page, interval)
}

// Adds the tuples of the page, those of each interval as one. Answers `Room`.
fn put_all(room: &mut [u8], page: &[u8], mut intervals: Intervals<'_>) -> Result<(), RedoWhy>
    requires room { IsFormed room.old }
    requires page { IsFormed page.now }
    requires can { IsTrue (can_merge_all page.now (first_data page.now) intervals) }
    ensures { Makes (with_items (dedup_tuples page.now 1 intervals.entry) room.old) result room.new }
{
    let mut from = 1;
    while let Some(interval) = intervals.next() {
        put_next(room, page, from, interval)?;
        from = usize::from(interval.base) + usize::from(interval.count);
    }
    put_lines_of(room, page, from, line_count(page) + 1)
}

// The page made anew, with its special space but for the flag of known garbage.
fn begin(room: &mut [u8], page: &[u8])
    requires room { length room.old ≡ 8192 }
    requires page { IsFormed page.now }
    ensures value { room.new ≡ with_special without_garbage (made_anew page.now) }
    ensures formed { IsFormed room.new }
{
    begin_anew(room, page);
    put_without_garbage(room);
}

/// Redoes DEDUP: makes one tuple of those of each interval. Answers `Place` where an interval begins
/// before the first tuple or in the one before it, has fewer than two tuples or reaches past the
/// last, or where a tuple of it has no tids or the first one's key can't get a list; then `Room`.
pub fn redo_dedup(page: &mut [u8], intervals: Intervals<'_>) -> Result<(), RedoWhy>
    requires { IsFormed page.old }
    ensures exact { Makes (dedup_page intervals.entry page.old) result page.new }
{
    if !can_merge_all(page, &intervals) {
        return Err(RedoWhy::Place);
    }
    let mut room = [0u8; 8192];
    begin(&mut room, page);
    put_all(&mut room, page, intervals)?;
    page.copy_from_slice(&room);
    Ok(())
}
