//! Bytes up to a byte, and after it.

ghost use Rattle.std.specs.Prelude.{◌≡◌, ◌<◌, length};
ghost use Rattle.std.specs.List.{before_first, after_first};
ghost use Rattle.memchr.specs.Find.{is_byte};

use memchr::memchr;

/// What stands before the first such byte, or all where there is none, and what stands after it.
pub fn cut_at(byte: u8, bytes: &[u8]) -> (&[u8], &[u8])
    ensures before { result.0.now ≡ before_first (is_byte byte) bytes.now }
    ensures after { result.1.now ≡ after_first (is_byte byte) bytes.now }
{
    match memchr(byte, bytes) {
        Some(at) => (&bytes[..at], &bytes[at + 1..]),
        None => (bytes, &bytes[bytes.len()..]),
    }
}
