// The names of a log's files.
ghost use Rattle.std.specs.Prelude.{◌≡◌, ◌<◌, ◌≤◌, ◌^◌, if◌then◌else◌, IsTrue, drop, length, max, take, true};
ghost use Rattle.std.specs.Char.{is_ascii_hexdigit, digit_value};
ghost use Rattle.std.specs.List.{list_all};
ghost use Rattle.archive_names.specs.Cleanup.{ends_segment, is_segment};
ghost use Rattle.wal_base.specs.Hex.{hex_value, is_long_name};
ghost use Rattle.wal_base.specs.Segment.{bytes_of, segments_per_high};
ghost use Rattle.reset_numbers.specs.Names.{digits_number, greatest_named, is_segment_with, is_status, number_named};

use cluster_tree::Names;
use wal_base::{SegSize, is_long_name};

// What follows the digits in the name of a segment's file.
fn ends_segment(end: &[u8]) -> bool
    ensures { result ≡ ends_segment end.now }
{
    end.is_empty() || end == b".partial".as_slice()
}

// The digits at the front of such a name, and what follows them.
fn head(name: &[u8]) -> &[u8]
    ensures { result.now ≡ take 24 name.now }
{
    &name[..name.len().min(24)]
}

fn tail(name: &[u8]) -> &[u8]
    ensures { result.now ≡ drop 24 name.now }
{
    &name[name.len().min(24)..]
}

/// Whether a name is that of a segment's file, finished or not.
pub fn is_segment(name: &[u8]) -> bool
    ensures { result ≡ is_segment name.now }
{
    is_long_name(head(name)) && ends_segment(tail(name))
}

// Whether a name has this end, and before it that of a segment's file.
fn is_segment_with(end: &[u8], name: &[u8]) -> bool
    ensures { result ≡ is_segment_with end.now name.now }
{
    let front = name.len().saturating_sub(end.len());
    &name[front..] == end && is_segment(&name[..front])
}

/// Whether a name in `archive_status` says of a segment that it is to be archived, or was.
#[tactic(auto, unfolding(crate::specs::Names::is_status))]
pub fn is_status(name: &[u8]) -> bool
    ensures { result ≡ is_status name.now }
{
    is_segment_with(b".ready".as_slice(), name) || is_segment_with(b".done".as_slice(), name)
}

fn digit_value(digit: u8) -> u8
    requires { IsTrue (is_ascii_hexdigit digit) }
    ensures { result ≡ digit_value digit }
{
    match digit {
        b'0'..=b'9' => digit - b'0',
        b'A'..=b'F' => digit - b'A' + 10,
        _ => digit - b'a' + 10,
    }
}

// The number that up to eight digits write.
fn hex_value(digits: &[u8]) -> u32
    requires short { length digits.now ≤ 8 }
    requires hex { IsTrue (list_all is_ascii_hexdigit digits.now) }
    ensures { result ≡ hex_value digits.now }
{
    let mut value = 0;
    for digit in digits {
        value = value * 16 + u32::from(digit_value(*digit));
    }
    value
}

/// How many segments of this size have positions with one high half.
pub(crate) fn per_high(size: SegSize) -> u64
    ensures value { result ≡ segments_per_high (bytes_of size) }
    ensures few { result ≤ 4096 }
{
    0x1_0000_0000 / u64::from(size.bytes())
}

// The number of the segment with these digits.
fn digits_number(size: SegSize, digits: &[u8]) -> u64
    requires { is_long_name digits.now ≡ true }
    ensures value { result ≡ digits_number (segments_per_high (bytes_of size)) digits.now }
    ensures bound { result < 2 ^ 45 }
{
    let high = u64::from(hex_value(&digits[8..16]));
    let low = u64::from(hex_value(&digits[16..]));
    high * per_high(size) + low
}

// The number of the segment that the name of a segment's file names.
#[tactic(auto, unfolding(crate::specs::Names::number_named))]
fn number_named(size: SegSize, name: &[u8]) -> u64
    requires { is_segment name.now ≡ true }
    ensures value { result ≡ number_named (bytes_of size) name.now }
    ensures bound { result < 2 ^ 45 }
{
    digits_number(size, &name[..24])
}

// The greater of a number and that of a segment with this name, if it is one.
fn greater(size: SegSize, least: u64, name: &[u8]) -> u64
    ensures { result ≡ (if is_segment name.now then max least (number_named (bytes_of size) name.now)
        else least) }
{
    if is_segment(name) {
        least.max(number_named(size, name))
    } else {
        least
    }
}

/// The greatest number among these names of segments' files, and at least this one.
pub(crate) fn greatest_named(size: SegSize, least: u64, names: &Names) -> u64
    ensures { result ≡ greatest_named (bytes_of size) least names.now }
{
    let mut greatest = least;
    for at in 0..names.len() {
        let Some(name) = names.get(at) else {
            unreachable!()
        };
        greatest = greater(size, greatest, name.as_bytes());
    }
    greatest
}
