//! The header of a block reference.

ghost use Rattle.std.specs.Prelude.{◌≡◌, ◌≤◌, ◌+◌, ◌<◌, ◌^◌, IfSome, length};
ghost use Rattle.block_refs.specs.Header.{is_id_after, bytes_agree, relation_at, relation_end, relation_of, head_from, head_behind, head_at};

use crate::block_ref::BlockRef;
use crate::image::{Image, has_bits, image_at, image_end};
use crate::names::{BlockName, Fork, RelName};
use layout::{u8_at, u16_at, u32_at};

/// The greatest id of a block reference (`XLR_MAX_BLOCK_ID`).
const GREATEST_ID: u8 = 32;

/// The bits of the fork's number (`BKPBLOCK_FORK_MASK`).
const FORK_MASK: u8 = 0x0F;

/// The flag of a reference that has bytes (`BKPBLOCK_HAS_DATA`).
const HAS_BYTES: u8 = 0x20;

/// The flag of a page that redo makes anew (`BKPBLOCK_WILL_INIT`).
const WILL_INIT: u8 = 0x40;

/// The flag of a reference to the relation of the block before (`BKPBLOCK_SAME_REL`).
const SAME_REL: u8 = 0x80;

/// The header of a block reference.
#[derive(Clone, Copy, Debug)]
pub struct Head {
    /// Its id.
    pub id: u8,
    /// The block.
    pub name: BlockName,
    /// Whether redo makes the page anew.
    pub will_init: bool,
    /// Its image.
    pub image: Image,
    /// How many bytes it has beside its image.
    pub size: u16,
    /// Where the header ends.
    pub next: usize,
}

/// Whether an id may stand behind a block reference.
fn is_id_after(before: Option<BlockRef>, id: u8) -> bool
    ensures { result ≡ is_id_after before id }
{
    match before {
        None => id <= GREATEST_ID,
        Some(before) => id <= GREATEST_ID && before.id < id,
    }
}

/// Whether the flags tell whether there are bytes.
fn bytes_agree(flags: u8, size: u16) -> bool
    ensures { result ≡ bytes_agree flags size }
{
    if has_bits(flags, HAS_BYTES) {
        size > 0
    } else {
        size == 0
    }
}

/// The relation whose numbers stand at an offset.
fn relation_at(body: &[u8], at: usize) -> RelName
    requires { at + 12 ≤ length body.now }
    ensures { result ≡ relation_at body.now at }
{
    RelName {
        space: u32_at(body, at),
        database: u32_at(body, at + 4),
        relation: u32_at(body, at + 8),
    }
}

/// The relation of a reference with these flags, or `None` where no rule fits: that of the block
/// before, or the one that stands at an offset.
#[tactic(auto, unfolding(crate::specs::Header::relation_of))]
fn relation_of(body: &[u8], at: usize, flags: u8, before: Option<BlockRef>) -> Option<RelName>
    requires low { at < 2 ^ 33 }
    ensures { result ≡ relation_of body.now at flags before }
{
    if has_bits(flags, SAME_REL) {
        return match before {
            None => None,
            Some(before) => Some(before.name.rel),
        };
    }
    if body.len() < at + 12 {
        return None;
    }
    Some(relation_at(body, at))
}

/// Where that relation ends.
fn relation_end(at: usize, flags: u8) -> usize
    requires low { at < 2 ^ 33 }
    ensures { result ≡ relation_end at flags }
{
    if has_bits(flags, SAME_REL) {
        at
    } else {
        at + 12
    }
}

/// Goes on behind the header of the image.
#[tactic(auto, unfolding(crate::specs::Header::head_from))]
fn head_from(
    body: &[u8],
    at: usize,
    from: usize,
    before: Option<BlockRef>,
    fork: Fork,
    image: Image,
) -> Option<Head>
    requires low { from < 2 ^ 33 }
    requires room { at + 4 ≤ length body.now }
    ensures { result ≡ head_from body.now at from before fork image }
{
    let flags = u8_at(body, at + 1);
    let rel = relation_of(body, from, flags, before)?;
    let number = relation_end(from, flags);
    if body.len() < number + 4 {
        return None;
    }
    let block = u32_at(body, number);
    Some(Head {
        id: u8_at(body, at),
        name: BlockName { rel, fork, block },
        will_init: has_bits(flags, WILL_INIT),
        image,
        size: u16_at(body, at + 2),
        next: number + 4,
    })
}

/// Goes on behind the first four bytes of the header.
#[tactic(auto, using(crate::proofs::HeadLemmas::image_room), unfolding(crate::specs::Header::head_behind))]
fn head_behind(body: &[u8], at: usize, before: Option<BlockRef>, fork: Fork) -> Option<Head>
    requires low { at < 2 ^ 31 }
    requires room { at + 4 ≤ length body.now }
    ensures { result ≡ head_behind body.now at before fork }
{
    let flags = u8_at(body, at + 1);
    let image = image_at(body, at + 4, flags)?;
    let from = image_end(body, at + 4, flags);
    head_from(body, at, from, before, fork, image)
}

/// The header of the block reference that stands at an offset, behind another one, or `None` where
/// no rule fits.
#[tactic(auto, unfolding(crate::specs::Header::head_at))]
pub fn head_at(body: &[u8], at: usize, before: Option<BlockRef>) -> Option<Head>
    requires low { at < 2 ^ 31 }
    ensures value { result ≡ head_at body.now at before }
{
    if body.len() < at + 4 {
        return None;
    }
    if !is_id_after(before, u8_at(body, at)) {
        return None;
    }
    let flags = u8_at(body, at + 1);
    if !bytes_agree(flags, u16_at(body, at + 2)) {
        return None;
    }
    let fork = Fork::from_number(flags & FORK_MASK)?;
    head_behind(body, at, before, fork)
}
