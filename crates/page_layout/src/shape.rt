ghost use Rattle.std.specs.Prelude.{ℕ, ◌≡◌, ◌+◌, ◌-◌, ◌*◌, ◌<◌, ◌≤◌, length, IsTrue};
ghost use Rattle.page_layout.specs.Page.{count, pd_lower, pd_upper, pd_special, header_fits, line_fits, well_formed, Head};

use crate::bytes::u16_at;
use crate::line::pointer_at;

/// The numbers of a page's header that place things.
#[derive(Clone, Copy)]
pub struct Bounds {
    /// The end of the lines.
    pub lower: usize,
    /// The begin of the items.
    pub upper: usize,
    /// The begin of the special space.
    pub special: usize,
}

/// The bounds in a page's header, whatever they are.
#[tactic(auto, unfolding(crate::specs::Page::pd_lower, crate::specs::Page::pd_upper, crate::specs::Page::pd_special))]
pub fn bounds_of(page: &[u8]) -> Bounds
    requires { length page.now ≡ 8192 }
    ensures lower { result.lower ≡ pd_lower page.now }
    ensures upper { result.upper ≡ pd_upper page.now }
    ensures special { result.special ≡ pd_special page.now }
    ensures lower_bound { result.lower < 65536 }
    ensures upper_bound { result.upper < 65536 }
    ensures special_bound { result.special < 65536 }
{
    Bounds {
        lower: u16_at(page, 12),
        upper: u16_at(page, 14),
        special: u16_at(page, 16),
    }
}

/// How many lines the page has.
pub fn line_count(page: &[u8]) -> usize
    requires size { length page.now ≡ 8192 }
    requires head { Head page.now }
    ensures { result ≡ count page.now }
{
    (bounds_of(page).lower - 24) / 4
}

/// Whether the header is that of a well formed page.
#[tactic(auto, unfolding(crate::specs::Page::header_fits), using(crate::proofs::ShapeLemmas::head_of))]
pub fn header_fits(page: &[u8]) -> bool
    requires { length page.now ≡ 8192 }
    ensures value { result ≡ header_fits page.now }
    ensures head { IsTrue result → Head page.now }
{
    let b = bounds_of(page);
    24 <= b.lower
        && b.lower <= b.upper
        && b.upper <= b.special
        && b.special <= 8192
        && b.lower % 4 == 0
        && b.upper % 8 == 0
        && b.special % 8 == 0
        && u16_at(page, 18) == 0x2004
}

/// Whether the line at index `k` points nowhere or to an item between upper and special.
#[tactic(auto, unfolding(crate::specs::Page::line_fits))]
pub fn line_fits(page: &[u8], k: usize) -> bool
    requires size { length page.now ≡ 8192 }
    requires there { 28 + 4 * k ≤ 8192 }
    ensures { result ≡ line_fits page.now k }
{
    let b = bounds_of(page);
    let pointer = pointer_at(page, k);
    pointer.len == 0
        || (b.upper <= pointer.off
            && pointer.off + pointer.len <= b.special
            && pointer.off % 8 == 0)
}

/// Whether the page is well formed.
#[tactic(auto, using(crate::proofs::ShapeLemmas::lines_below, crate::proofs::ShapeLemmas::not_lines))]
pub fn well_formed(page: &[u8]) -> bool
    requires { length page.now ≡ 8192 }
    ensures value { result ≡ well_formed page.now }
    ensures head { IsTrue result → Head page.now }
{
    if !header_fits(page) {
        return false;
    }
    for k in 0..line_count(page) {
        if !line_fits(page, k) {
            return false;
        }
    }
    true
}
