//! The header of a full-page image.

ghost use Rattle.std.specs.Prelude.{◌≡◌, ◌≤◌, ◌+◌, ◌<◌, ◌^◌, IsTrue, length};
ghost use Rattle.block_refs.specs.Bits.{has_bits, has_image};
ghost use Rattle.block_refs.specs.Image.{fills_page, image_of, image_at, image_header_size, image_end};

use crate::block_ref::ImageRef;
use layout::{u8_at, u16_at};

/// The flag of a block reference with an image (`BKPBLOCK_HAS_IMAGE`).
pub const HAS_IMAGE: u8 = 0x10;

/// The bit of an image with a hole (`BKPIMAGE_HAS_HOLE`).
const HAS_HOLE: u8 = 0x01;

/// The bit of an image that redo puts in place (`BKPIMAGE_APPLY`).
const APPLY: u8 = 0x02;

/// The bits of compressed images (`BKPIMAGE_COMPRESS_PGLZ`, `.._LZ4` and `.._ZSTD`).
const COMPRESSED: u8 = 0x1C;

/// The bits that no image of version 16 has.
const UNKNOWN: u8 = 0xE0;

/// What the header of a block reference says of its image.
#[derive(Clone, Copy, Debug)]
pub enum Image {
    /// It has none.
    Missing,
    /// It has one that isn't compressed.
    Plain(ImageRef),
    /// It has one that is compressed.
    Compressed,
}

/// Whether some of these bits are set.
pub fn has_bits(flags: u8, bits: u8) -> bool
    ensures { result ≡ has_bits flags bits }
{
    flags & bits != 0
}

/// Whether an image of this length, which isn't compressed, fills a page.
fn fills_page(hole: bool, size: u16, hole_at: u16) -> bool
    ensures { result ≡ fills_page hole size hole_at }
{
    if !hole {
        return hole_at == 0 && size == 8192;
    }
    hole_at > 0 && size < 8192 && u32::from(hole_at) + (8192 - u32::from(size)) <= 8192
}

/// The image whose header has these numbers, or `None` where no rule fits.
#[tactic(auto, unfolding(crate::specs::Image::image_of))]
fn image_of(size: u16, hole_at: u16, info: u8) -> Option<Image>
    ensures { result ≡ image_of size hole_at info }
{
    if has_bits(info, UNKNOWN) {
        return None;
    }
    if has_bits(info, COMPRESSED) {
        return Some(Image::Compressed);
    }
    if !fills_page(has_bits(info, HAS_HOLE), size, hole_at) {
        return None;
    }
    Some(Image::Plain(ImageRef {
        apply: has_bits(info, APPLY),
        hole_at,
        hole: 8192u16.saturating_sub(size),
    }))
}

/// The image of a block reference with these flags, whose header stands at an offset, or `None`
/// where no rule fits.
#[tactic(auto, unfolding(crate::specs::Image::image_at))]
pub fn image_at(body: &[u8], at: usize, flags: u8) -> Option<Image>
    requires low { at < 2 ^ 32 }
    ensures { result ≡ image_at body.now at flags }
{
    if !has_bits(flags, HAS_IMAGE) {
        return Some(Image::Missing);
    }
    if body.len() < at + 5 {
        return None;
    }
    image_of(u16_at(body, at), u16_at(body, at + 2), u8_at(body, at + 4))
}

/// How many bytes the header of an image has: the length of its hole is there only where the image
/// is compressed.
fn image_header_size(info: u8) -> usize
    ensures { result ≡ image_header_size info }
{
    if has_bits(info, COMPRESSED) && has_bits(info, HAS_HOLE) {
        7
    } else {
        5
    }
}

/// Where the header of that image ends.
pub fn image_end(body: &[u8], at: usize, flags: u8) -> usize
    requires low { at < 2 ^ 32 }
    requires room { IsTrue (has_image flags) → at + 5 ≤ length body.now }
    ensures value { result ≡ image_end body.now at flags }
    ensures most { result ≤ at + 7 }
{
    if has_bits(flags, HAS_IMAGE) {
        at + image_header_size(u8_at(body, at + 4))
    } else {
        at
    }
}
