ghost use Rattle.std.specs.Prelude.{ℕ, ◌≡◌, ◌↔◌, length, IfOk, IsTrue};
ghost use Rattle.page_masks.specs.Mask.{mask};

use crate::btree::mask_btree;
use crate::heap::mask_heap;
use crate::kind::{PageKind, kind_of_bytes};
use crate::others::{mask_other, mask_sequence};
use page_layout::Page;
use std::alloc::Global;
use wal_base::OutOfMemory;

/// Masks the page of this block's number in place, whatever its bytes are.
#[tactic(auto, using(page_layout::proofs::Lent::over_same))]
pub fn mask(page: &mut Page, block: u32)
    ensures { page.new ≡ mask block page.old }
{
    mask_bytes(page.bytes_mut(), block);
}

/// The same over a page's bytes.
#[tactic(auto, using(crate::proofs::MaskSteps::mask_rules))]
pub fn mask_bytes(page: &mut [u8], block: u32)
    requires { length page.old ≡ 8192 }
    ensures { page.new ≡ mask block page.old }
{
    match kind_of_bytes(page) {
        PageKind::Zero => {}
        PageKind::Heap => mask_heap(page, block),
        PageKind::Btree => mask_btree(page),
        PageKind::Sequence => mask_sequence(page),
        PageKind::Other => mask_other(page),
    }
}

// A masked copy of the page.
#[tactic(auto, using(page_layout::proofs::Lent::over_same))]
fn masked_copy(alloc: Global, page: &Page, block: u32) -> Result<Page, OutOfMemory>
    ensures { IfOk result (λ copy. copy ≡ mask block page.now) }
{
    let mut copy = Page::zero(alloc)?;
    copy.bytes_mut().copy_from_slice(page.bytes());
    mask(&mut copy, block);
    Ok(copy)
}

/// Whether two pages are the same once masked as this block's. Answers `OutOfMemory` only for want
/// of memory.
pub fn same_page(alloc: Global, a: &Page, b: &Page, block: u32) -> Result<bool, OutOfMemory>
    ensures { IfOk result (λ same. IsTrue same ↔ (mask block a.now ≡ mask block b.now)) }
{
    let first = masked_copy(alloc, a, block)?;
    let second = masked_copy(alloc, b, block)?;
    Ok(first.bytes() == second.bytes())
}
