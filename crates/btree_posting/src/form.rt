//! Tuples that are formed anew, at the front of a room of 8192 bytes.

ghost use Rattle.std.specs.Prelude.{ℕ, ◌≡◌, ◌+◌, ◌<◌, ◌≤◌, ◌++◌, ◌-◌, ◌/◌, length, take, drop};
ghost use Rattle.page_layout.specs.Bytes.{up8};
ghost use Rattle.page_masks.specs.Mask.{tid_bytes};
ghost use Rattle.btree_posting.specs.Form.{with_header, with_own, listed, padded, form_of};

use crate::tuple::{LISTS, TID_SIZE};
use page_layout::bytes::{clear, put, put_u16, u16_at};

/// The most bytes that are laid in a room, without those that are added to have whole multiples of 8.
pub const MOST: usize = 8184;

/// Lays bytes behind the first `end` ones. Answers where they end.
pub fn lay(room: &mut [u8], end: usize, bytes: &[u8]) -> usize
    requires { end + length bytes.now ≤ length room.old }
    ensures value { result ≡ end + length bytes.now }
    ensures laid { take result room.new ≡ take end room.old ++ bytes.now }
{
    put(room, end, bytes);
    end + bytes.len()
}

// Lays zeros up to the next multiple of 8. Answers where they end.
fn pad(room: &mut [u8], end: usize) -> usize
    requires size { length room.old ≡ 8192 }
    requires room { end ≤ 8184 }
    ensures value { result ≡ up8 end }
    ensures laid { take result room.new ≡ padded (take end room.old) }
{
    let size = (end + 7) / 8 * 8;
    clear(room, end, size - end);
    size
}

// A tid as its bytes.
fn tid_bytes(block: usize, offset: usize) -> [u8; 6]
    requires block { block < 4294967296 }
    requires offset { offset < 65536 }
    ensures { result ≡ tid_bytes block offset }
{
    [
        (block / 65536 % 256) as u8,
        (block / 16777216) as u8,
        (block % 256) as u8,
        (block / 256 % 256) as u8,
        (offset % 256) as u8,
        (offset / 256) as u8,
    ]
}

// Writes a tuple's own tid, and `t_info` with a flag and a size.
fn put_header(tuple: &mut [u8], tid: &[u8], flag: usize, size: usize)
    requires header { 8 ≤ length tuple.old }
    requires tid { length tid.now ≡ 6 }
    requires fits { flag + size < 0x4000 }
    ensures { tuple.new ≡ with_header tid.now flag size tuple.old }
{
    let info = u16_at(tuple, 6) / 0x4000 * 0x4000 + flag + size;
    put(tuple, 0, tid);
    put_u16(tuple, 6, info);
}

// Makes a key with one tid behind it a tuple with that tid.
fn finish_own(room: &mut [u8], at: usize)
    requires size { length room.old ≡ 8192 }
    requires key { 8 ≤ at }
    requires room { at + 6 ≤ 8184 }
    ensures { take at room.new ≡ with_own (take at room.old) (take 6 (drop at room.old)) }
{
    let mut tid = [0u8; 6];
    tid.copy_from_slice(&room[at..at + TID_SIZE]);
    put_header(&mut room[..at], &tid, 0, at);
}

// Makes a key with several tids behind it a tuple with a list. Answers its size.
fn finish_list(room: &mut [u8], at: usize, end: usize) -> usize
    requires size { length room.old ≡ 8192 }
    requires key { 8 ≤ at }
    requires room { end ≤ 8184 }
    requires tids { at ≤ end }
    ensures value { result ≡ up8 end }
    ensures made { take result room.new ≡ listed at ((end - at) / 6) (padded (take end room.old)) }
{
    let size = pad(room, end);
    let tid = tid_bytes(at, LISTS + (end - at) / TID_SIZE);
    put_header(&mut room[..size], &tid, LISTS, size);
    size
}

/// Makes a key of `at` bytes with tids behind it, up to `end`, a tuple with these tids. Answers its
/// size.
pub fn finish(room: &mut [u8], at: usize, end: usize) -> usize
    requires size { length room.old ≡ 8192 }
    requires key { 8 ≤ at }
    requires room { end ≤ 8184 }
    requires tids { at ≤ end }
    ensures made { take result room.new ≡ form_of at (take end room.old) }
    ensures bound { result ≤ 8192 }
{
    if end == at + TID_SIZE {
        finish_own(room, at);
        at
    } else {
        finish_list(room, at, end)
    }
}
