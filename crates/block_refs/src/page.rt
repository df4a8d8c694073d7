//! Full-page images as pages.

ghost use Rattle.std.specs.Prelude.{◌≡◌, ◌≤◌, ◌+◌, ◌++◌, drop, length, replicate, is_some, IfSome};
ghost use Rattle.block_refs.specs.Bytes.{filled, page_of, overwritten};
ghost use Rattle.block_refs.specs.Parts.{ArePartsOf};
ghost use Rattle.layout.specs.Splice.{splice};

use crate::block_ref::ImageRef;
use crate::parts::Parts;
use wal_records::Record;

/// Lays bytes over others from an offset on.
#[tactic(auto, unfolding(layout::specs::Splice::splice))]
fn put(into: &mut [u8], at: usize, bytes: &[u8])
    requires { at + length bytes.now ≤ length into.old }
    ensures { into.new ≡ splice into.old at bytes.now }
{
    let end = at + bytes.len();
    into[at..end].copy_from_slice(bytes);
}

/// Lays so many zeros over bytes from an offset on.
#[tactic(auto, unfolding(layout::specs::Splice::splice))]
fn clear(into: &mut [u8], at: usize, size: usize)
    requires { at + size ≤ length into.old }
    ensures { into.new ≡ splice into.old at (replicate size 0) }
{
    let end = at + size;
    into[at..end].fill(0);
}

/// Writes the page of an image with these bytes at the front of `into`.
fn fill(image: ImageRef, stored: &[u8], into: &mut [u8])
    requires room { 8192 ≤ length into.old }
    requires whole { length stored.now + image.hole ≡ 8192 }
    requires within { image.hole_at + image.hole ≤ 8192 }
    ensures { into.new ≡ filled image stored.now ++ drop 8192 into.old }
{
    let front = usize::from(image.hole_at);
    let back = front + usize::from(image.hole);
    put(into, 0, &stored[..front]);
    clear(into, front, usize::from(image.hole));
    put(into, back, &stored[front..]);
}

/// Writes the full-page image of the block with an id at the front of `into`, with zeros in its hole
/// (`RestoreBlockImage`), and answers whether there is one: where no reference has the id or the
/// block has no image, `into` stays. The parts have to be those of the record, and `into` has 8192
/// bytes or more. It takes no memory.
pub fn image_page(rec: &Record, parts: &Parts, id: u8, into: &mut [u8]) -> bool
    requires parts { ArePartsOf rec.now parts.now }
    requires room { 8192 ≤ length into.old }
    ensures some { result ≡ is_some (page_of rec.now.body parts.now id) }
    ensures page { into.new ≡ overwritten (page_of rec.now.body parts.now id) into.old }
    ensures size { IfSome (page_of rec.now.body parts.now id) (λ page. length page ≡ 8192) }
{
    let Some(placed) = parts.find(id) else {
        return false;
    };
    let Some(image) = placed.block.image else {
        return false;
    };
    let size = placed.block.image_size() as usize;
    fill(image, parts.bytes_at(rec, placed.image_at, size), into);
    true
}
