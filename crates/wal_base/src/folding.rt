//! CRC-32C of long pieces, whose bytes are folded onto their last ones before these are summed.

ghost use Rattle.std.specs.Prelude.{◌≡◌, ◌+◌, ◌-◌, ◌*◌, ◌%◌, ◌≤◌, length, take, drop};
ghost use Rattle.std.specs.Int.{w32, to_le_bytes};
ghost use Rattle.std.specs.Simd.Lanes.{chunk, put_chunk};
ghost use Rattle.wal_base.specs.Crc.{crc_fold};
ghost use Rattle.wal_base.specs.Folding.{folded};

use crate::slices::{add_chunk, add_chunks};
use std::simd::prelude::*;

/// How many bytes stand before a piece, and are left of it in the end: the greatest distance,
/// 290, in whole rows.
const WINDOW: usize = 304;

/// The longest piece, a page.
const BLOCK: usize = 8192;

/// Where a piece is this long, folding is faster.
const LONG: usize = 1024;

/// The sixteen bytes that stand so far before the row at `at`.
fn earlier(sums: &[u8], at: usize, distance: usize) -> u8x16
    requires near { distance ≤ WINDOW }
    requires whole { at + (WINDOW - distance) + 16 ≤ length sums.now }
    ensures { result ≡ chunk (at + (WINDOW - distance)) 16 sums.now }
{
    u8x16::from_slice(&sums[at + (WINDOW - distance)..])
}

/// Sixteen bytes of the folded piece, from the bytes that stand before them.
// Of the relations of six terms, the fastest tried: what it reads was stored long enough ago.
fn folded_row(sums: &[u8], piece: &[u8], at: usize) -> u8x16
    requires whole { at + 16 ≤ length piece.now }
    requires room { at + 166 ≤ length sums.now }
    ensures { result ≡ chunk at 16 (folded piece.now sums.now) }
{
    u8x16::from_slice(&piece[at..])
        ^ earlier(sums, at, 154)
        ^ earlier(sums, at, 177)
        ^ earlier(sums, at, 183)
        ^ earlier(sums, at, 258)
        ^ earlier(sums, at, 290)
}

/// Folds the first rows of a piece, so many.
fn fold_rows(sums: &mut [u8], piece: &[u8], count: usize)
    requires whole { 16 * count ≤ length piece.now }
    requires room { 16 * count + WINDOW ≤ length sums.old }
    ensures rows { take (16 * count) (drop WINDOW sums.new)
        ≡ take (16 * count) (folded piece.now sums.new) }
    ensures before { take WINDOW sums.new ≡ take WINDOW sums.old }
    ensures after { drop (16 * count + WINDOW) sums.new ≡ drop (16 * count + WINDOW) sums.old }
{
    for row in 0..count {
        let folded = folded_row(sums, piece, 16 * row);
        folded.copy_to_slice(&mut sums[16 * row + WINDOW..]);
    }
}

/// What the last bytes of a folded piece add.
fn last_bytes(sums: &[u8], piece: &[u8], from: usize) -> u32
    requires whole { from + WINDOW ≤ length piece.now }
    requires room { from + WINDOW + 150 ≤ length sums.now }
    ensures { result ≡ crc_fold 0 (take WINDOW (drop from (folded piece.now sums.now))) }
{
    let mut state = 0;
    for row in 0..WINDOW / 16 {
        let folded = folded_row(sums, piece, from + 16 * row);
        state = add_chunk(state, &folded.to_array());
    }
    state
}

/// Puts a state 290 bytes before the piece, whence it is folded onto the first four bytes alone.
fn place_state(sums: &mut [u8], state: u32)
    requires room { 18 ≤ length sums.old }
    ensures { sums.new ≡ put_chunk 14 sums.old (to_le_bytes w32 state) }
{
    u8x4::from_array(state.to_le_bytes()).copy_to_slice(&mut sums[14..]);
}

/// The state after a piece of whole rows.
fn add_piece(state: u32, piece: &[u8]) -> u32
    requires rows { length piece.now % 16 ≡ 0 }
    requires whole { WINDOW ≤ length piece.now }
    requires room { length piece.now ≤ BLOCK }
    ensures { result ≡ crc_fold state piece.now }
{
    let mut sums = [0u8; WINDOW + BLOCK];
    place_state(&mut sums, state);
    let count = piece.len() / 16 - WINDOW / 16;
    fold_rows(&mut sums, piece, count);
    last_bytes(&sums, piece, 16 * count)
}

/// The state after many bytes.
// Not inlined, so that few bytes don't pay for its frame.
#[inline(never)]
fn add_long(state: u32, bytes: &[u8]) -> u32
    ensures { result ≡ crc_fold state bytes.now }
{
    let mut state = state;
    let mut rest = bytes;
    while rest.len() >= LONG {
        let (piece, later) = rest.split_at(rest.len().min(BLOCK) / 16 * 16);
        state = add_piece(state, piece);
        rest = later;
    }
    add_chunks(state, rest)
}

/// The state after more bytes.
pub fn add_all(state: u32, bytes: &[u8]) -> u32
    ensures { result ≡ crc_fold state bytes.now }
{
    if bytes.len() < LONG {
        add_chunks(state, bytes)
    } else {
        add_long(state, bytes)
    }
}
