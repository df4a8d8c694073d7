//! Numbers at an offset, the lowest byte first.

ghost use Rattle.std.specs.Prelude.{◌≡◌, ◌≤◌, ◌+◌, ◌<◌, length};
ghost use Rattle.layout.specs.Readers.{u8_at, u16_at, u32_at, u64_at, i64_at, raw_at};

use byteorder::{ByteOrder, LittleEndian};

/// The byte at an offset.
#[tactic(auto, unfolding(crate::specs::Readers::u8_at))]
pub fn u8_at(bytes: &[u8], at: usize) -> u8
    requires { at < length bytes.now }
    ensures { result ≡ u8_at at bytes.now }
{
    bytes[at]
}

/// The number in the two bytes from an offset.
#[tactic(auto, unfolding(crate::specs::Readers::u16_at))]
pub fn u16_at(bytes: &[u8], at: usize) -> u16
    requires { at + 2 ≤ length bytes.now }
    ensures { result ≡ u16_at at bytes.now }
{
    LittleEndian::read_u16(&bytes[at..])
}

/// The number in the four bytes from an offset.
#[tactic(auto, unfolding(crate::specs::Readers::u32_at))]
pub fn u32_at(bytes: &[u8], at: usize) -> u32
    requires { at + 4 ≤ length bytes.now }
    ensures { result ≡ u32_at at bytes.now }
{
    LittleEndian::read_u32(&bytes[at..])
}

/// The number in the eight bytes from an offset.
#[tactic(auto, unfolding(crate::specs::Readers::u64_at))]
pub fn u64_at(bytes: &[u8], at: usize) -> u64
    requires { at + 8 ≤ length bytes.now }
    ensures { result ≡ u64_at at bytes.now }
{
    LittleEndian::read_u64(&bytes[at..])
}

/// The signed number in the eight bytes from an offset, in two's complement.
#[tactic(auto, unfolding(crate::specs::Readers::i64_at))]
pub fn i64_at(bytes: &[u8], at: usize) -> i64
    requires { at + 8 ≤ length bytes.now }
    ensures { result ≡ i64_at at bytes.now }
{
    u64_at(bytes, at).cast_signed()
}

/// The 32 bytes from an offset.
pub fn raw_at(bytes: &[u8], at: usize) -> [u8; 32]
    requires { at + 32 ≤ length bytes.now }
    ensures { result ≡ raw_at at bytes.now }
{
    let mut raw = [0; 32];
    raw.copy_from_slice(&bytes[at..at + 32]);
    raw
}
