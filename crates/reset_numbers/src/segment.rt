// The new segment.
ghost use Rattle.std.specs.Prelude.{◌≡◌, ◌*◌, ◌<◌, ◌≤◌, ◌^◌, ◌↔◌, true, false, Some, IfNone, IfSome, IsTrue};
ghost use Rattle.std.specs.Option.{option_map_or};
ghost use Rattle.control_file.specs.Admission.{IsControl};
ghost use Rattle.wal_base.specs.SegSize.{IsSegSize};
ghost use Rattle.wal_base.specs.Segment.{bytes_of};
ghost use Rattle.wal_base.specs.SizeOfBytes.{size_of_bytes};
ghost use Rattle.reset_numbers.specs.Names.{given_number, is_low_past, next_number};
ghost use Rattle.reset_numbers.specs.Options.{IsFit};
ghost use Rattle.reset_numbers.specs.Behind.{new_segment, segment_behind};

use crate::ResetOptions;
use crate::control::new_tli;
use crate::names::{greatest_named, per_high};
use cluster_tree::Names;
use clusters::segment_size;
use control_file::Control;
use wal_base::{SegSize, Segment};

// The first position that no segment may reach.
const LIMIT: u64 = 0x8000_0000_0000_0000;

// The size of the new log's segments.
fn size_after(given: Option<u32>, old: SegSize) -> SegSize
    requires fit { IfSome given (λ mb. IsSegSize (mb * 2 ^ 20)) }
    requires old { size_of_bytes (bytes_of old) ≡ Some old }
    ensures { size_of_bytes (option_map_or (λ mb. mb * 2 ^ 20) given (bytes_of old)) ≡ Some result }
{
    match given {
        Some(mb) => match SegSize::new(mb * 0x10_0000) {
            Some(size) => size,
            None => unreachable!(),
        },
        None => old,
    }
}

// The number of the first segment of the new size behind the last byte of one of the old size, or
// `None` where that would reach the limit.
fn next_number(old: SegSize, new: SegSize, number: u64) -> Option<u64>
    ensures some { IfSome result (λ next. next ≡ next_number (bytes_of old) (bytes_of new) number) }
    ensures none { IfNone result
        (2 ^ 63 ≤ next_number (bytes_of old) (bytes_of new) number * bytes_of new) }
{
    let size = u64::from(old.bytes());
    if number >= LIMIT / size {
        return None;
    }
    Some((number * size + (size - 1)) / u64::from(new.bytes()) + 1)
}

// The number that is given, where it is greater, or `None` where there is no such.
fn given_number(size: SegSize, given: Option<(u32, u64, u64)>, number: u64) -> Option<u64>
    requires { IfSome given (λ log. (log.1 < 2 ^ 32) × (log.2 < 2 ^ 32)) }
    ensures some { IfSome result (λ n. n ≡ given_number (bytes_of size) given number) }
    ensures low { IfSome result (λ n. is_low_past (bytes_of size) given ≡ false) }
    ensures none { IfNone result (is_low_past (bytes_of size) given ≡ true) }
{
    let Some(log) = given else {
        return Some(number);
    };
    if log.2 >= per_high(size) {
        return None;
    }
    Some(number.max(log.1 * per_high(size) + log.2))
}

// Whether a segment of this number would reach the limit.
fn reaches_limit(size: SegSize, number: u64) -> bool
    ensures { IsTrue result ↔ (2 ^ 63 ≤ number * bytes_of size) }
{
    number >= LIMIT / u64::from(size.bytes())
}

// The new segment behind this one of the old size, or the one that is given.
fn segment_behind(
    given: Option<(u32, u64, u64)>,
    tli: u32,
    old: SegSize,
    size: SegSize,
    greatest: u64,
) -> Option<Segment>
    requires { IfSome given (λ log. (log.1 < 2 ^ 32) × (log.2 < 2 ^ 32)) }
    ensures value { result ≡ segment_behind given tli (bytes_of old) size greatest }
    ensures low { IfSome result (λ s. s.number * bytes_of s.size < 2 ^ 63) }
{
    let Some(next) = next_number(old, size, greatest) else {
        return None;
    };
    let Some(number) = given_number(size, given, next) else {
        return None;
    };
    if reaches_limit(size, number) {
        return None;
    }
    Some(Segment {
        tli: new_tli(given, tli),
        number,
        size,
    })
}

/// The new segment: the first one behind all that the control file and the names tell, or the one
/// that is given where that stands behind it. `None` where what is given has no such number, or it
/// would reach the position 2^63.
#[tactic(auto, unfolding(crate::specs::Behind::new_segment), using(crate::proofs::OptionLemmas::fit_steps))]
pub fn new_segment(options: &ResetOptions, old: &Control, names: &Names) -> Option<Segment>
    requires fit { IsFit options.now }
    requires control { IsControl old.now }
    ensures value { result ≡ new_segment options.now old.now names.now }
    ensures low { IfSome result (λ s. s.number * bytes_of s.size < 2 ^ 63) }
{
    let before = segment_size(old);
    let size = size_after(options.segment_mb, before);
    let greatest = greatest_named(before, old.cp.redo / u64::from(before.bytes()), names);
    segment_behind(options.log, old.cp.tli, before, size, greatest)
}
