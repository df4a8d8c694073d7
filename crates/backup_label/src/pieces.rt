// Bytes up to a byte, and after it.
ghost use Rattle.std.specs.Prelude.{◌≡◌};
ghost use Rattle.std.specs.Option.{option_copied};
ghost use Rattle.std.specs.List.{after_first, before_first};
ghost use Rattle.memchr.specs.Find.{is_byte};
ghost use Rattle.backup_label.specs.Reading.{behind, whole_line};

use memchr::memchr;

/// The first line, where a newline ends it.
pub(crate) fn first_line(bytes: &[u8]) -> Option<&[u8]>
    ensures { option_copied result ≡ whole_line bytes.now }
{
    match memchr(b'\n', bytes) {
        Some(at) => Some(&bytes[..at]),
        None => None,
    }
}

/// What stands before the first such byte, or all where there is none.
pub(crate) fn before_first(byte: u8, bytes: &[u8]) -> &[u8]
    ensures { result.now ≡ before_first (is_byte byte) bytes.now }
{
    match memchr(byte, bytes) {
        Some(at) => &bytes[..at],
        None => bytes,
    }
}

/// What stands after the first such byte.
pub(crate) fn after_first(byte: u8, bytes: &[u8]) -> &[u8]
    ensures { result.now ≡ after_first (is_byte byte) bytes.now }
{
    match memchr(byte, bytes) {
        Some(at) => &bytes[at + 1..],
        None => &bytes[bytes.len()..],
    }
}

/// What stands behind this front of a text.
pub(crate) fn behind<'a>(front: &[u8], text: &'a [u8]) -> Option<&'a [u8]>
    ensures { option_copied result ≡ behind front.now text.now }
{
    text.strip_prefix(front)
}
