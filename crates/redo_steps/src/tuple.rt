//! The words of a heap tuple's header; `tuple` is the item's bytes.

ghost use Rattle.std.specs.Prelude.{ℕ, ◌≡◌, ◌+◌, ◌≤◌, length};
ghost use Rattle.layout.specs.Splice.{splice};
ghost use Rattle.page_layout.specs.Bytes.{u32_bytes};
ghost use Rattle.redo_steps.specs.Tuple.{with_xmin, with_xmax, with_ctid, with_moved_ctid, hoff, with_told_bits, with_hot_off, with_hot_on, with_first_cid};

use crate::bits::{hot_off, hot_on, told_infomask, told_infomask2, without_combo};
use page_layout::bytes::{put, put_u16, u16_at};

/// Writes a number of four bytes at `at`.
pub fn put_u32(bytes: &mut [u8], at: usize, n: u32)
    requires { at + 4 ≤ length bytes.old }
    ensures { bytes.new ≡ splice bytes.old at (u32_bytes n) }
{
    put(
        bytes,
        at,
        &[
            (n % 256) as u8,
            (n / 256 % 256) as u8,
            (n / 65536 % 256) as u8,
            (n / 16777216) as u8,
        ],
    );
}

/// Writes the inserting transaction.
pub fn put_xmin(tuple: &mut [u8], xid: u32)
    requires { 23 ≤ length tuple.old }
    ensures { tuple.new ≡ with_xmin xid tuple.old }
{
    put_u32(tuple, 0, xid);
}

/// Writes the deleting or locking transaction.
pub fn put_xmax(tuple: &mut [u8], xid: u32)
    requires { 23 ≤ length tuple.old }
    ensures { tuple.new ≡ with_xmax xid tuple.old }
{
    put_u32(tuple, 4, xid);
}

/// Writes the address of the tuple's next version, its own where there is none.
pub fn put_ctid(tuple: &mut [u8], block: u32, place: u16)
    requires { 23 ≤ length tuple.old }
    ensures { tuple.new ≡ with_ctid block place tuple.old }
{
    put(
        tuple,
        12,
        &[
            (block / 65536 % 256) as u8,
            (block / 16777216) as u8,
            (block % 256) as u8,
            (block / 256 % 256) as u8,
            (place % 256) as u8,
            (place / 256) as u8,
        ],
    );
}

/// Writes the address of a tuple that went to another partition.
pub fn put_moved_ctid(tuple: &mut [u8])
    requires { 23 ≤ length tuple.old }
    ensures { tuple.new ≡ with_moved_ctid tuple.old }
{
    put_ctid(tuple, 0xFFFF_FFFF, 0xFFFD);
}

/// Where the tuple's values begin.
pub fn hoff(tuple: &[u8]) -> usize
    requires { 23 ≤ length tuple.now }
    ensures { result ≡ hoff tuple.now }
{
    tuple[22] as usize
}

/// Writes what the record tells of xmax into both infomasks.
pub fn put_told_bits(tuple: &mut [u8], infobits: u8)
    requires { 23 ≤ length tuple.old }
    ensures { tuple.new ≡ with_told_bits infobits tuple.old }
{
    let infomask = told_infomask(u16_at(tuple, 20), infobits);
    put_u16(tuple, 20, infomask);
    let infomask2 = told_infomask2(u16_at(tuple, 18), infobits);
    put_u16(tuple, 18, infomask2);
}

/// No heap-only version comes after the tuple.
pub fn put_hot_off(tuple: &mut [u8])
    requires { 23 ≤ length tuple.old }
    ensures { tuple.new ≡ with_hot_off tuple.old }
{
    let infomask2 = hot_off(u16_at(tuple, 18));
    put_u16(tuple, 18, infomask2);
}

/// A heap-only version comes after the tuple.
pub fn put_hot_on(tuple: &mut [u8])
    requires { 23 ≤ length tuple.old }
    ensures { tuple.new ≡ with_hot_on tuple.old }
{
    let infomask2 = hot_on(u16_at(tuple, 18));
    put_u16(tuple, 18, infomask2);
}

/// Writes the first command id.
pub fn put_first_cid(tuple: &mut [u8])
    requires { 23 ≤ length tuple.old }
    ensures { tuple.new ≡ with_first_cid tuple.old }
{
    let infomask = without_combo(u16_at(tuple, 20));
    put_u16(tuple, 20, infomask);
    put_u32(tuple, 8, 0);
}
