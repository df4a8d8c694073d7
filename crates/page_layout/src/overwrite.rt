ghost use Rattle.std.specs.Prelude.{ℕ, ◌≡◌, ◌-◌, ◌<◌, ◌≤◌, length, None};
ghost use Rattle.page_layout.specs.Apart.{AreApart};
ghost use Rattle.page_layout.specs.Bytes.{up8};
ghost use Rattle.page_layout.specs.Page.{count, lp_len, IsFormed};
ghost use Rattle.page_layout.specs.Overwrite.{overwrite_refusal, overwritten};

use crate::add::put_item;
use crate::delete::{move_lines, raise};
use crate::line::{Pointer, pointer_at, put_pointer};
use crate::refusal::PageRefusal;
use crate::shape::{line_count, well_formed};

/// Why an item of `len` bytes can't be laid over the one at this place, if it can't.
#[tactic(auto, using(crate::proofs::ShapeLemmas::held_in))]
pub fn overwrite_refusal(page: &[u8], place: u16, len: usize) -> Option<PageRefusal>
    requires { length page.now ≡ 8192 }
    ensures value { result ≡ overwrite_refusal page.now place len }
    ensures formed { result ≡ None → IsFormed page.now }
    ensures there { result ≡ None → 0 < place × (place - 1 < count page.now) }
    ensures room { result ≡ None → 0 < lp_len page.now (place - 1)
        × (up8 len ≤ up8 (lp_len page.now (place - 1))) }
{
    if !well_formed(page) {
        return Some(PageRefusal::BadPage);
    }
    let at = place as usize;
    if at == 0 || at > line_count(page) {
        return Some(PageRefusal::BadPlace);
    }
    let old = pointer_at(page, at - 1).len;
    if old == 0 {
        return Some(PageRefusal::BadPlace);
    }
    if len > 8192 || (len + 7) / 8 * 8 > (old + 7) / 8 * 8 {
        return Some(PageRefusal::NoRoom);
    }
    None
}

/// Lays an item over that of the line at index `k`, as `overwrite_refusal` let it through.
#[tactic(auto, using(crate::proofs::ShapeLemmas::held_in, crate::proofs::OverwrittenStays::overwritten_formed))]
pub fn put_overwritten(page: &mut [u8], k: usize, item: &[u8])
    requires formed { IsFormed page.old }
    requires there { k < count page.old }
    requires held { 0 < lp_len page.old k }
    requires room { up8 (length item.now) ≤ up8 (lp_len page.old k) }
    ensures bytes { page.new ≡ overwritten page.old k item.now }
    ensures formed { AreApart page.old → IsFormed page.new }
{
    let line = pointer_at(page, k);
    let size = (line.len + 7) / 8 * 8 - (item.len() + 7) / 8 * 8;
    let lines = line_count(page);
    raise(page, line.off, size);
    move_lines(page, line.off + 1, size, lines);
    let moved = Pointer {
        off: line.off + size,
        flags: line.flags,
        len: item.len(),
    };
    put_pointer(page, k, moved);
    put_item(page, item, line.off + size);
}
