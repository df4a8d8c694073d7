//! The new tuple of an UPDATE.

ghost use Rattle.std.specs.Prelude.{◌≡◌, ◌≤◌, ◌+◌, length, option_map};
ghost use Rattle.block_layouts.specs.Update.{bitmap_size, header_place, length_at, update_seen, update_tuple_of, update_tuple_with};

use crate::tuple::{HEADER_SIZE, TupleHeader, header_at};
use layout::u16_at;

/// The bytes of a heap tuple's fixed header (`SizeofHeapTupleHeader`).
const FIXED_SIZE: u8 = 23;

/// Which parts of the old tuple the new one has, as the flags in the main bytes tell.
#[derive(Clone, Copy, Debug, PartialEq, Eq)]
pub struct OldParts {
    /// Whether it has the old tuple's first bytes (`XLH_UPDATE_PREFIX_FROM_OLD`).
    pub prefix: bool,
    /// Whether it has the old tuple's last bytes (`XLH_UPDATE_SUFFIX_FROM_OLD`).
    pub suffix: bool,
}

/// The new tuple of an UPDATE. Its bytes from byte 23 on are `bitmap`, then `prefix` bytes of the
/// old tuple, then `bytes`, then `suffix` bytes of the old tuple.
#[derive(Clone, Copy, Debug)]
pub struct UpdateTuple<'a> {
    /// How many bytes come from the old tuple's `hoff` on, 0 where it has no such part.
    pub prefix: u16,
    /// How many bytes come from the old tuple's end, 0 where it has no such part.
    pub suffix: u16,
    /// What the record holds of its header.
    pub header: TupleHeader,
    /// With a part of the old tuple, the new tuple's bytes from byte 23 to its `hoff`, which are
    /// its bitmap of nulls and padding; else empty.
    pub bitmap: &'a [u8],
    /// The other bytes that the record holds.
    pub bytes: &'a [u8],
}

/// The length that stands at an offset, where there is one.
fn length_at(there: bool, bytes: &[u8], at: usize) -> u16
    requires room { at + 2 ≤ length bytes.now }
    ensures { result ≡ length_at there at bytes.now }
{
    if there { u16_at(bytes, at) } else { 0 }
}

/// Where the header stands.
fn header_place(parts: OldParts) -> usize
    ensures value { result ≡ header_place parts }
    ensures most { result ≤ 4 }
{
    match (parts.prefix, parts.suffix) {
        (true, true) => 4,
        (true, false) | (false, true) => 2,
        (false, false) => 0,
    }
}

/// How many bytes stand before the prefix.
fn bitmap_size(parts: OldParts, hoff: u8) -> Option<usize>
    ensures { result ≡ bitmap_size parts hoff }
{
    if !parts.prefix && !parts.suffix {
        return Some(0);
    }
    if hoff < FIXED_SIZE {
        return None;
    }
    Some(usize::from(hoff - FIXED_SIZE))
}

/// The tuple whose header stands at an offset, with a bitmap of so many bytes.
fn update_tuple_with(
    parts: OldParts,
    bytes: &[u8],
    at: usize,
    size: usize,
) -> Option<UpdateTuple<'_>>
    requires place { at ≡ header_place parts }
    requires room { at + 5 ≤ length bytes.now }
    requires small { size ≤ 255 }
    ensures { option_map update_seen result ≡ update_tuple_with parts bytes.now at size }
{
    let front = at + HEADER_SIZE;
    if bytes.len() < front + size {
        return None;
    }
    let suffix_at = if parts.prefix { 2 } else { 0 };
    Some(UpdateTuple {
        prefix: length_at(parts.prefix, bytes, 0),
        suffix: length_at(parts.suffix, bytes, suffix_at),
        header: header_at(bytes, at),
        bitmap: &bytes[front..front + size],
        bytes: &bytes[front + size..],
    })
}

/// The new tuple of an UPDATE or a HOT_UPDATE, of the bytes of its block 0, or `None` where they
/// are too few: the lengths of the parts that are there, the header, and with a part the bytes to
/// `hoff`, which is then at least 23.
#[tactic(auto, unfolding(crate::specs::Update::update_tuple_of))]
pub fn update_tuple(bytes: &[u8], parts: OldParts) -> Option<UpdateTuple<'_>>
    ensures value { option_map update_seen result ≡ update_tuple_of parts bytes.now }
{
    let at = header_place(parts);
    if bytes.len() < at + HEADER_SIZE {
        return None;
    }
    let size = bitmap_size(parts, header_at(bytes, at).hoff)?;
    update_tuple_with(parts, bytes, at, size)
}
