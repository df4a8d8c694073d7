ghost use Rattle.std.specs.Prelude.{ℕ, ◌≡◌, ◌+◌, ◌*◌, ◌/◌, ◌%◌, ◌<◌, ◌≤◌, length};
ghost use Rattle.page_layout.specs.Bytes.{page_of};
ghost use Rattle.page_layout.specs.Page.{pd_lower};
ghost use Rattle.page_masks.specs.Mask.{btree_front, btree_byte};
ghost use Rattle.page_masks.specs.Shapes.{IsBtree};

use page_layout::shape::bounds_of;

// A byte before the items: page flags, prune xid, the kinds of a leaf's lines, free space.
#[tactic(auto, unfolding(crate::specs::Mask::btree_front))]
fn front_byte(page: &[u8], lower: usize, i: usize) -> u8
    requires size { length page.now ≡ 8192 }
    requires there { i < 8192 }
    requires lower { lower ≡ pd_lower page.now }
    requires low { 24 ≤ lower }
    ensures { result ≡ btree_front page.now i }
{
    let byte = page[i];
    let is_leaf = page[8188] % 2 == 1;
    if i < 10 || 20 <= i && i < 24 || lower <= i {
        return 0;
    }
    match i % 4 {
        2 if i == 10 => byte / 8 * 8,
        1 if is_leaf && i >= 24 => byte % 128,
        2 if is_leaf && i >= 24 => byte / 2 * 2,
        _ => byte,
    }
}

// Byte `i` of the masked page.
#[tactic(auto, unfolding(crate::specs::Mask::btree_byte))]
fn btree_byte(page: &[u8], i: usize) -> u8
    requires page { IsBtree page.now }
    requires there { i < 8192 }
    ensures { result ≡ btree_byte page.now i }
{
    let b = bounds_of(page);
    if i < b.upper {
        return front_byte(page, b.lower, i);
    }
    match i {
        8188 => page[i] / 128 * 128 + page[i] % 32,
        8190 | 8191 => 0,
        _ => page[i],
    }
}

// Masks a B-tree page in place.
pub fn mask_btree(page: &mut [u8])
    requires { IsBtree page.old }
    ensures { page.new ≡ page_of (btree_byte page.old) }
{
    let mut old = [0u8; 8192];
    old.copy_from_slice(page);
    for i in 0..8192 {
        page[i] = btree_byte(&old, i);
    }
}
