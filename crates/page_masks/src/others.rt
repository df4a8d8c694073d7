ghost use Rattle.std.specs.Prelude.{ℕ, ◌≡◌, length};
ghost use Rattle.page_layout.specs.Bytes.{page_of};
ghost use Rattle.page_layout.specs.Page.{Head};
ghost use Rattle.page_masks.specs.Mask.{sequence_byte, other_byte};

use page_layout::bytes::clear;
use page_layout::shape::bounds_of;

// Masks a sequence's page in place: LSN, checksum and free space.
#[tactic(auto, using(crate::proofs::OtherBytes::sequence_laid))]
pub fn mask_sequence(page: &mut [u8])
    requires size { length page.old ≡ 8192 }
    requires head { Head page.old }
    ensures { page.new ≡ page_of (sequence_byte page.old) }
{
    let b = bounds_of(page);
    clear(page, 0, 10);
    clear(page, b.lower, b.upper - b.lower);
}

// Masks any other page in place: LSN and checksum.
#[tactic(auto, using(crate::proofs::OtherBytes::other_laid))]
pub fn mask_other(page: &mut [u8])
    requires { length page.old ≡ 8192 }
    ensures { page.new ≡ page_of (other_byte page.old) }
{
    clear(page, 0, 10);
}
