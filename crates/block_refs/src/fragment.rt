//! The fragments at the front of a record's body.

ghost use Rattle.std.specs.Prelude.{◌≡◌, ◌≤◌, ◌+◌, ◌<◌, ◌^◌, ◌++◌, length};
ghost use Rattle.layout.specs.Readers.{u8_at, u32_at};
ghost use Rattle.block_refs.specs.declared.fault.Flaw.TheVariants as flaws;
ghost use Rattle.block_refs.specs.declared.fragment.Fragment.TheVariants as fragments;
ghost use Rattle.block_refs.specs.Fragment.{announced_by, piece_with, block_piece, fixed, fragment_at, fits, piece_at};
ghost use Rattle.block_refs.specs.Parts.{after, is_ended, placed_by};

use crate::block_ref::{BlockRef, ImageRef};
use crate::fault::Flaw;
use crate::header::{Head, head_at};
use crate::image::Image;
use crate::placed::{Blocks, Placed};
use layout::{u8_at, u32_at};

/// The first byte of the main bytes' length in one byte (`XLR_BLOCK_ID_DATA_SHORT`).
const MAIN_SHORT: u8 = 255;

/// The first byte of the main bytes' length in four bytes (`XLR_BLOCK_ID_DATA_LONG`).
const MAIN_LONG: u8 = 254;

/// The first byte of a replication origin (`XLR_BLOCK_ID_ORIGIN`).
const ORIGIN: u8 = 253;

/// The first byte of a top transaction (`XLR_BLOCK_ID_TOPLEVEL_XID`).
const TOP_XID: u8 = 252;

/// A fragment.
#[derive(Clone, Copy, Debug)]
pub enum Fragment {
    /// A block reference, and how many bytes it has beside its image.
    Block(BlockRef, u16),
    /// How many main bytes there are.
    Main(u32),
    /// An origin or a transaction, which belong to no part.
    Other,
}

/// A fragment, and where it ends.
#[derive(Clone, Copy, Debug)]
pub struct Piece {
    /// The fragment.
    pub fragment: Fragment,
    /// The offset behind it.
    pub next: usize,
}

/// What the fragments up to an offset said.
#[derive(Clone, Copy, Debug)]
pub struct Seen {
    /// The offset.
    pub at: usize,
    /// How many bytes behind the headers they announce.
    pub announced: usize,
    /// The last block reference.
    pub before: Option<BlockRef>,
    /// How many of the bytes are main bytes.
    pub main: u32,
}

/// A block reference with its image, as a fragment.
fn piece_with(head: Head, image: Option<ImageRef>) -> Piece
    ensures { result ≡ piece_with head image }
{
    let block = BlockRef {
        id: head.id,
        name: head.name,
        will_init: head.will_init,
        image,
    };
    Piece {
        fragment: Fragment::Block(block, head.size),
        next: head.next,
    }
}

/// The flaw that no rule fits the fragment at an offset.
fn bad(at: usize) -> Flaw
    requires low { at < 2 ^ 31 }
    ensures { result ≡ flaws.Bad at }
{
    Flaw::Bad(at as u32)
}

/// The block reference whose header stands at an offset.
fn block_piece(at: usize, head: Option<Head>) -> Result<Piece, Flaw>
    requires low { at < 2 ^ 31 }
    ensures { result ≡ block_piece at head }
{
    let Some(head) = head else {
        return Err(bad(at));
    };
    match head.image {
        Image::Missing => Ok(piece_with(head, None)),
        Image::Plain(image) => Ok(piece_with(head, Some(image))),
        Image::Compressed => Err(Flaw::Compressed(head.id)),
    }
}

/// A fragment of so many bytes at an offset.
fn fixed(body: &[u8], at: usize, size: usize, fragment: Fragment) -> Result<Piece, Flaw>
    requires low { at < 2 ^ 31 }
    requires small { size ≤ 5 }
    ensures { result ≡ fixed body.now at size fragment }
{
    let next = at + size;
    if body.len() < next {
        return Err(bad(at));
    }
    Ok(Piece { fragment, next })
}

/// The length of the main bytes in one byte, at an offset.
fn main_short(body: &[u8], at: usize) -> Result<Piece, Flaw>
    requires low { at < 2 ^ 31 }
    ensures { result ≡ fixed body.now at 2 (fragments.Main (u8_at (at + 1) body.now)) }
{
    if body.len() < at + 2 {
        return Err(bad(at));
    }
    let fragment = Fragment::Main(u32::from(u8_at(body, at + 1)));
    Ok(Piece {
        fragment,
        next: at + 2,
    })
}

/// The length of the main bytes in four bytes, at an offset.
fn main_long(body: &[u8], at: usize) -> Result<Piece, Flaw>
    requires low { at < 2 ^ 31 }
    ensures { result ≡ fixed body.now at 5 (fragments.Main (u32_at (at + 1) body.now)) }
{
    if body.len() < at + 5 {
        return Err(bad(at));
    }
    let fragment = Fragment::Main(u32_at(body, at + 1));
    Ok(Piece {
        fragment,
        next: at + 5,
    })
}

/// The fragment at an offset, behind a block reference.
#[tactic(auto, unfolding(crate::specs::Fragment::fragment_at))]
fn fragment_at(body: &[u8], at: usize, before: Option<BlockRef>) -> Result<Piece, Flaw>
    requires low { at < 2 ^ 31 }
    ensures { result ≡ fragment_at body.now at before }
{
    if body.len() <= at {
        return Err(bad(at));
    }
    match u8_at(body, at) {
        MAIN_SHORT => main_short(body, at),
        MAIN_LONG => main_long(body, at),
        ORIGIN => fixed(body, at, 3, Fragment::Other),
        TOP_XID => fixed(body, at, 5, Fragment::Other),
        _ => block_piece(at, head_at(body, at, before)),
    }
}

/// How many bytes behind the headers a fragment announces.
fn announced_by(fragment: Fragment) -> usize
    ensures value { result ≡ announced_by fragment }
    ensures most { result < 2 ^ 33 }
{
    match fragment {
        Fragment::Block(block, size) => block.image_size() as usize + usize::from(size),
        Fragment::Main(size) => size as usize,
        Fragment::Other => 0,
    }
}

/// Whether what is announced fits what is left behind a fragment. Main bytes are all of it.
fn fits(body: &[u8], announced: usize, piece: Piece) -> bool
    requires low { announced < 2 ^ 31 }
    ensures { result ≡ fits body.now announced piece piece.fragment }
{
    let left = body.len().saturating_sub(piece.next);
    match piece.fragment {
        Fragment::Block(block, size) => {
            announced + (block.image_size() as usize + usize::from(size)) <= left
        }
        Fragment::Main(size) => announced + size as usize == left,
        Fragment::Other => announced <= left,
    }
}

/// The fragment behind those that were seen, or what is wrong with it.
#[tactic(auto, unfolding(crate::specs::Fragment::piece_at))]
pub fn piece_at(body: &[u8], seen: Seen) -> Result<Piece, Flaw>
    requires low { seen.at < 2 ^ 31 }
    requires few { seen.announced < 2 ^ 31 }
    ensures { result ≡ piece_at body.now seen }
{
    let piece = fragment_at(body, seen.at, seen.before)?;
    if !fits(body, seen.announced, piece) {
        return Err(bad(seen.at));
    }
    Ok(piece)
}

/// Whether the headers end here: where what they announce is what is left.
pub fn is_ended(body: &[u8], seen: Seen) -> bool
    ensures { result ≡ is_ended body.now seen }
{
    seen.announced == body.len().saturating_sub(seen.at)
}

/// Behind one more fragment.
pub fn after(seen: Seen, piece: Piece) -> Seen
    requires few { seen.announced < 2 ^ 31 }
    ensures { result ≡ after seen piece }
{
    let (before, main) = match piece.fragment {
        Fragment::Block(block, _) => (Some(block), seen.main),
        Fragment::Main(size) => (seen.before, size),
        Fragment::Other => (seen.before, seen.main),
    };
    Seen {
        at: piece.next,
        announced: seen.announced + announced_by(piece.fragment),
        before,
        main,
    }
}

/// Adds the block of a fragment that is one, whose image begins at a place.
pub fn add_placed(blocks: &mut Blocks, at: usize, fragment: Fragment)
    requires low { at < 2 ^ 31 }
    requires room { length blocks.old.items + length (placed_by at fragment) ≤ 33 }
    ensures { blocks.new.items ≡ blocks.old.items ++ placed_by at fragment }
{
    match fragment {
        Fragment::Block(block, size) => blocks.push(Placed {
            block,
            image_at: at,
            at: at + block.image_size() as usize,
            size,
        }),
        Fragment::Main(_) => {}
        Fragment::Other => {}
    }
}
