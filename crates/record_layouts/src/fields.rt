//! Single fields at an offset.

ghost use Rattle.std.specs.Prelude.{◌≡◌, ◌≤◌, ◌+◌, ◌<◌, ◌^◌, length};
ghost use Rattle.record_layouts.specs.Fields.{byte_if, int_at, int_if, lsn_at, relation, relation_if, word_if};

use block_refs::RelName;
use layout::{u32_at, u64_at};
use wal_base::Lsn;

/// The signed number in the four bytes from an offset, in two's complement.
#[tactic(auto, unfolding(crate::specs::Fields::int_at))]
pub fn i32_at(bytes: &[u8], at: usize) -> i32
    requires { at + 4 ≤ length bytes.now }
    ensures { result ≡ int_at at bytes.now }
{
    u32_at(bytes, at).cast_signed()
}

/// The position in the eight bytes from an offset.
pub fn lsn_at(bytes: &[u8], at: usize) -> Lsn
    requires { at + 8 ≤ length bytes.now }
    ensures { result ≡ lsn_at at bytes.now }
{
    Lsn(u64_at(bytes, at))
}

/// The relation in the twelve bytes from an offset: tablespace, database, number.
pub fn relation_at(bytes: &[u8], at: usize) -> RelName
    requires { at + 12 ≤ length bytes.now }
    ensures { result ≡ relation at bytes.now }
{
    RelName {
        space: u32_at(bytes, at),
        database: u32_at(bytes, at + 4),
        relation: u32_at(bytes, at + 8),
    }
}

/// The byte at an offset, if it is there.
pub fn u8_if(bytes: &[u8], at: usize) -> Option<u8>
    ensures { result ≡ byte_if at bytes.now }
{
    bytes.get(at).copied()
}

/// The number in the four bytes from an offset, if they are there.
pub fn u32_if(bytes: &[u8], at: usize) -> Option<u32>
    requires low { at < 2 ^ 16 }
    ensures { result ≡ word_if at bytes.now }
{
    if bytes.len() < at + 4 {
        return None;
    }
    Some(u32_at(bytes, at))
}

/// The signed number in the four bytes from an offset, if they are there.
pub fn i32_if(bytes: &[u8], at: usize) -> Option<i32>
    requires low { at < 2 ^ 16 }
    ensures { result ≡ int_if at bytes.now }
{
    if bytes.len() < at + 4 {
        return None;
    }
    Some(i32_at(bytes, at))
}

/// The relation in the twelve bytes from an offset, if they are there.
pub fn relation_if(bytes: &[u8], at: usize) -> Option<RelName>
    requires low { at < 2 ^ 16 }
    ensures { result ≡ relation_if at bytes.now }
{
    if bytes.len() < at + 12 {
        return None;
    }
    Some(relation_at(bytes, at))
}
