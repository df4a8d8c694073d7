ghost use Rattle.std.specs.Prelude.{ℕ, ◌≡◌, ◌+◌, ◌-◌, ◌*◌, ◌<◌, ◌≤◌, length, IsTrue, None};
ghost use Rattle.page_layout.specs.Bytes.{up8};
ghost use Rattle.page_layout.specs.Page.{count, pd_lower, pd_special, Head, ItemIn, lp_len, lines_fit};
ghost use Rattle.page_layout.specs.Pack.{total, packed_off, with_packed, packed, pack_refusal, has_room};

use crate::add::put_item;
use crate::bytes::{clear, put_u16};
use crate::line::{Pointer, pointer_at, put_pointer};
use crate::refusal::PageRefusal;
use crate::shape::{bounds_of, line_count, well_formed};

// How many bytes the items take.
fn total_of(page: &[u8]) -> usize
    requires size { length page.now ≡ 8192 }
    requires head { Head page.now }
    ensures value { result ≡ total page.now (count page.now) }
    ensures bound { result ≤ 32768 * count page.now }
{
    let mut sum = 0;
    for k in 0..line_count(page) {
        let line = pointer_at(page, k);
        sum += (line.len + 7) / 8 * 8;
    }
    sum
}

/// Whether the items, each rounded up to 8, fit between lower and special.
pub fn has_room(page: &[u8]) -> bool
    requires size { length page.now ≡ 8192 }
    requires head { Head page.now }
    ensures value { result ≡ has_room page.now }
    ensures fits { IsTrue result →
        pd_lower page.now + total page.now (count page.now) ≤ pd_special page.now }
{
    let b = bounds_of(page);
    b.lower + total_of(page) <= b.special
}

// Lays the line at index `k` of the old page and its item, the item below `below`.
fn put_packed(page: &mut [u8], old: &[u8], k: usize, below: usize) -> usize
    requires size { length page.old ≡ 8192 }
    requires old_size { length old.now ≡ 8192 }
    requires top { pd_special old.now ≤ 8192 }
    requires there { 28 + 4 * k ≤ 8192 }
    requires below { below ≡ pd_special old.now - total old.now k }
    requires room { up8 (lp_len old.now k) ≤ below }
    requires held { 0 < lp_len old.now k → ItemIn old.now k }
    ensures bytes { page.new ≡ with_packed old.now k page.old }
    ensures next { result ≡ packed_off old.now k }
{
    let line = pointer_at(old, k);
    if line.len == 0 {
        return below;
    }
    let at = below - (line.len + 7) / 8 * 8;
    put_item(page, &old[line.off..line.off + line.len], at);
    put_pointer(
        page,
        k,
        Pointer {
            off: at,
            flags: line.flags,
            len: line.len,
        },
    );
    at
}

/// Lays the items anew, in line order from special downwards, with zeros between lower and upper.
pub fn put_all_packed(page: &mut [u8])
    requires size { length page.old ≡ 8192 }
    requires head { Head page.old }
    requires lines { IsTrue (lines_fit page.old (count page.old)) }
    requires room { pd_lower page.old + total page.old (count page.old) ≤ pd_special page.old }
    ensures { page.new ≡ packed page.old }
{
    let mut old = [0u8; 8192];
    old.copy_from_slice(page);
    let b = bounds_of(page);
    clear(page, b.lower, b.special - b.lower);
    let mut at = b.special;
    for k in 0..(b.lower - 24) / 4 {
        at = put_packed(page, &old, k, at);
    }
    put_u16(page, 14, at);
}

/// Why the page can't be packed, if it can't.
pub fn pack_refusal(page: &[u8]) -> Option<PageRefusal>
    requires { length page.now ≡ 8192 }
    ensures value { result ≡ pack_refusal page.now }
    ensures head { result ≡ None → Head page.now }
{
    if !well_formed(page) {
        return Some(PageRefusal::BadPage);
    }
    if has_room(page) {
        None
    } else {
        Some(PageRefusal::NoRoom)
    }
}
