//! Bytes of a record, read from their front.

ghost use Rattle.std.specs.Prelude.{◌≡◌, ◌<◌, ◌^◌, IfSome, length};
ghost use Rattle.std.specs.List.{position};
ghost use Rattle.record_layouts.specs.Fields.{count, counted_bytes, is_zero, long, signed, text, word};

use layout::{i64_at, u32_at, u64_at};
use std::marker::Model;

/// Some bytes of a record: contracts see their list.
#[derive(Drop)]
pub struct Bytes<'a> {
    bytes: &'a [u8],
}

impl<'a> Model for Bytes<'a> {
    ghost use Rattle.std.specs.Prelude.{List, ℕ};

    ghost Value = { List ℕ };

    ghost view = { λ b. b.bytes.now };
}

impl<'a> Bytes<'a> {
    /// These bytes.
    pub(crate) fn new(bytes: &'a [u8]) -> Bytes<'a>
        ensures { result ≡ bytes.now }
    {
        Bytes { bytes }
    }

    /// The bytes as a slice of the record's.
    pub fn slice(&self) -> &'a [u8]
        ensures { result.now ≡ self.now }
    {
        self.bytes
    }
}

/// What was read, and the bytes behind it.
#[derive(Drop)]
pub struct Read<'a, T: Drop> {
    /// What was read.
    pub value: T,
    /// The bytes behind it.
    pub rest: Bytes<'a>,
}

/// A number of four bytes.
#[tactic(auto, unfolding(crate::specs::Fields::word))]
pub fn word<'a>(bytes: &'a [u8]) -> Option<Read<'a, u32>>
    ensures { result ≡ word bytes.now }
{
    if bytes.len() < 4 {
        return None;
    }
    let value = u32_at(bytes, 0);
    let rest = Bytes::new(&bytes[4..]);
    Some(Read { value, rest })
}

/// A number of eight bytes.
#[tactic(auto, unfolding(crate::specs::Fields::long))]
pub fn long<'a>(bytes: &'a [u8]) -> Option<Read<'a, u64>>
    ensures { result ≡ long bytes.now }
{
    if bytes.len() < 8 {
        return None;
    }
    let value = u64_at(bytes, 0);
    let rest = Bytes::new(&bytes[8..]);
    Some(Read { value, rest })
}

/// A signed number of eight bytes.
#[tactic(auto, unfolding(crate::specs::Fields::signed))]
pub fn signed<'a>(bytes: &'a [u8]) -> Option<Read<'a, i64>>
    ensures { result ≡ signed bytes.now }
{
    if bytes.len() < 8 {
        return None;
    }
    let value = i64_at(bytes, 0);
    let rest = Bytes::new(&bytes[8..]);
    Some(Read { value, rest })
}

/// How many of something follow: a signed number of four bytes that isn't negative.
#[tactic(auto, unfolding(crate::specs::Fields::count))]
pub fn count<'a>(bytes: &'a [u8]) -> Option<Read<'a, u32>>
    ensures value { result ≡ count bytes.now }
    ensures signed { IfSome result (λ read. read.value < 2 ^ 31) }
{
    let read = word(bytes)?;
    if read.value >= 0x8000_0000 {
        return None;
    }
    Some(read)
}

/// As many bytes as the count before them says.
#[tactic(auto, unfolding(crate::specs::Fields::counted_bytes))]
pub fn counted_bytes<'a>(bytes: &'a [u8]) -> Option<Read<'a, Bytes<'a>>>
    ensures { result ≡ counted_bytes bytes.now }
{
    let counted = count(bytes)?;
    let size = counted.value as usize;
    let behind = counted.rest.slice();
    if behind.len() < size {
        return None;
    }
    let value = Bytes::new(&behind[..size]);
    let rest = Bytes::new(&behind[size..]);
    Some(Read { value, rest })
}

/// Where the first zero is.
fn zero_at(bytes: &[u8]) -> Option<usize>
    ensures value { result ≡ position is_zero bytes.now }
    ensures within { IfSome result (λ at. at < length bytes.now) }
{
    bytes.iter().position(|&byte| byte == 0)
}

/// The bytes before the first zero. The rest begins behind that.
#[tactic(auto, unfolding(crate::specs::Fields::text))]
pub fn text<'a>(bytes: &'a [u8]) -> Option<Read<'a, Bytes<'a>>>
    ensures { result ≡ text bytes.now }
{
    let size = zero_at(bytes)?;
    let value = Bytes::new(&bytes[..size]);
    let rest = Bytes::new(&bytes[size + 1..]);
    Some(Read { value, rest })
}
