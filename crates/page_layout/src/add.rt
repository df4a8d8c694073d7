ghost use Rattle.std.specs.Prelude.{ℕ, ◌≡◌, ◌+◌, ◌*◌, ◌<◌, ◌≤◌, length, None};
ghost use Rattle.page_layout.specs.Bytes.{up8};
ghost use Rattle.page_layout.specs.Page.{count, pd_lower, pd_upper, Head};
ghost use Rattle.page_layout.specs.Edits.{add_refusal, opened_at, with_item, added_at, added};

use crate::bytes::{clear, move_bytes, put, put_u16};
use crate::line::{Pointer, put_pointer};
use crate::refusal::PageRefusal;
use crate::shape::{bounds_of, line_count, well_formed};
use crate::trim::is_free;

/// Lays an item at `at`, and zeros up to the next multiple of 8.
pub fn put_item(page: &mut [u8], item: &[u8], at: usize)
    requires { at + up8 (length item.now) ≤ length page.old }
    ensures { page.new ≡ with_item page.old item.now at }
{
    put(page, at, item);
    let n = item.len();
    clear(page, at + n, (n + 7) / 8 * 8 - n);
}

/// Why an item of `size` bytes can't be added at this place, if it can't.
pub fn add_refusal(page: &[u8], size: usize, place: u16, overwrite: bool) -> Option<PageRefusal>
    requires { length page.now ≡ 8192 }
    ensures value { result ≡ add_refusal page.now size place overwrite }
    ensures head { result ≡ None → Head page.now }
{
    if !well_formed(page) {
        return Some(PageRefusal::BadPage);
    }
    let lines = line_count(page);
    let at = place as usize;
    if at == 0 || at > lines + 1 {
        return Some(PageRefusal::BadPlace);
    }
    let is_new = !overwrite || at > lines;
    if !is_new && !is_free(page, at - 1) {
        return Some(PageRefusal::BadPlace);
    }
    let b = bounds_of(page);
    let lower = if is_new { b.lower + 4 } else { b.lower };
    if size > 8192 || lower + (size + 7) / 8 * 8 > b.upper {
        return Some(PageRefusal::NoRoom);
    }
    None
}

// Lines from index `k` on move up by one.
fn open_line(page: &mut [u8], k: usize)
    requires size { length page.old ≡ 8192 }
    requires head { Head page.old }
    requires there { k ≤ count page.old }
    requires room { pd_lower page.old + 4 ≤ pd_upper page.old }
    ensures { page.new ≡ opened_at page.old k }
{
    let b = bounds_of(page);
    move_bytes(page, 24 + 4 * k, b.lower - (24 + 4 * k), 28 + 4 * k);
}

// The line at index `k`, the new bounds, and the item.
fn put_added(page: &mut [u8], item: &[u8], k: usize, lower: usize, upper: usize)
    requires size { length page.old ≡ 8192 }
    requires there { 28 + 4 * k ≤ 8192 }
    requires lower { lower < 65536 }
    requires upper { upper < 32768 }
    requires small { length item.now < 32768 }
    requires fits { upper + up8 (length item.now) ≤ 8192 }
    ensures { page.new ≡ added_at page.old item.now k lower upper }
{
    let pointer = Pointer {
        off: upper,
        flags: 1,
        len: item.len(),
    };
    put_pointer(page, k, pointer);
    put_u16(page, 12, lower);
    put_u16(page, 14, upper);
    put_item(page, item, upper);
}

/// Adds an item that `add_refusal` let through.
pub fn put_new(page: &mut [u8], item: &[u8], place: u16, overwrite: bool)
    requires size { length page.old ≡ 8192 }
    requires head { Head page.old }
    requires allowed { add_refusal page.old (length item.now) place overwrite ≡ None }
    ensures { page.new ≡ added page.old item.now place overwrite }
{
    let b = bounds_of(page);
    let k = place as usize - 1;
    let upper = b.upper - (item.len() + 7) / 8 * 8;
    if !overwrite || k >= line_count(page) {
        open_line(page, k);
        put_added(page, item, k, b.lower + 4, upper);
    } else {
        put_added(page, item, k, b.lower, upper);
    }
}
