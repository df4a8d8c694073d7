ghost use Rattle.std.specs.Prelude.{ℕ, ◌≡◌, ◌+◌, ◌-◌, ◌*◌, ◌/◌, ◌<◌, ◌≤◌, length, IsTrue};
ghost use Rattle.layout.specs.Splice.{splice};
ghost use Rattle.page_layout.specs.Bytes.{u16_at, with_u16, up8};
ghost use Rattle.page_layout.specs.Page.{lp_flags, lp_off, lp_len, item, Head, line_fits, lines_fit, count, ItemIn};
ghost use Rattle.page_masks.specs.Mask.{masked_tuple, masked_infomask, masked_item};
ghost use Rattle.page_masks.specs.Shapes.{IsHeap};
ghost use Rattle.page_masks.specs.Laying.{fronted, with_held, heap_laid};

use page_layout::add::put_item;
use page_layout::bytes::{clear, put, put_u16, u16_at};
use page_layout::line::pointer_at;
use page_layout::shape::bounds_of;
use page_layout::trim::trimmed_count;

// The infomask without hint bits.
fn masked_infomask(bits: usize) -> usize
    requires { bits < 65536 }
    ensures value { result ≡ masked_infomask bits }
    ensures bound { result < 65536 }
{
    if bits / 256 % 4 == 3 {
        bits / 4096 * 4096 + bits % 1024
    } else {
        bits % 16
    }
}

// The tuple at this place of the block, masked where it stands.
fn mask_tuple(tuple: &mut [u8], block: u32, place: usize)
    requires size { 23 ≤ length tuple.old }
    requires place { place < 65536 }
    ensures { tuple.new ≡ masked_tuple block place tuple.old }
{
    let bits = u16_at(tuple, 20);
    if u16_at(tuple, 16) == 0xFFFE {
        put(
            tuple,
            12,
            &[
                (block / 65536 % 256) as u8,
                (block / 16777216) as u8,
                (block % 256) as u8,
                (block / 256 % 256) as u8,
                (place % 256) as u8,
                (place / 256) as u8,
            ],
        );
    }
    put(tuple, 8, &[0, 0, 0, 0]);
    put_u16(tuple, 20, masked_infomask(bits));
}

// What stands before the items.
fn mask_front(page: &mut [u8])
    requires size { length page.old ≡ 8192 }
    requires head { Head page.old }
    ensures { page.new ≡ fronted page.old }
{
    let b = bounds_of(page);
    let lower = 24 + 4 * trimmed_count(page);
    let flags = page[10];
    clear(page, 0, 10);
    page[10] = flags / 8 * 8;
    put_u16(page, 12, lower);
    clear(page, 20, 4);
    clear(page, lower, b.upper - lower);
}

// The item of a line, masked where it stands.
#[tactic(auto, unfolding(crate::specs::Mask::masked_item))]
fn mask_item(held: &mut [u8], block: u32, place: usize, flags: usize)
    requires { place < 65536 }
    ensures { held.new ≡ masked_item block place flags held.old }
{
    if flags == 1 && held.len() >= 23 {
        mask_tuple(held, block, place);
    }
}

// Lays the item of line `k` of the old page over the new one, masked.
#[tactic(auto, using(page_layout::proofs::ShapeLemmas::item_in))]
fn put_held(page: &mut [u8], old: &[u8], block: u32, k: usize)
    requires size { length page.old ≡ 8192 }
    requires old_size { length old.now ≡ 8192 }
    requires head { Head old.now }
    requires there { 28 + 4 * k ≤ 8192 }
    requires held { 0 < lp_len old.now k → ItemIn old.now k }
    ensures { page.new ≡ with_held block old.now k page.old }
{
    let line = pointer_at(old, k);
    if line.len == 0 {
        return;
    }
    let end = line.off + line.len;
    put_item(page, &old[line.off..end], line.off);
    mask_item(&mut page[line.off..end], block, k + 1, line.flags);
}

// Masks a heap page in place.
pub fn mask_heap(page: &mut [u8], block: u32)
    requires { IsHeap page.old }
    ensures { page.new ≡ heap_laid block page.old }
{
    let mut old = [0u8; 8192];
    old.copy_from_slice(page);
    let n = trimmed_count(page);
    mask_front(page);
    for k in 0..n {
        put_held(page, &old, block, k);
    }
}
