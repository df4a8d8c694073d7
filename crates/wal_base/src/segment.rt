//! Segment files and their names.

ghost use Rattle.std.specs.Prelude.{◌≡◌, ◌*◌, ◌/◌, ◌<◌, ◌^◌, IfOk, IfSome};
ghost use Rattle.wal_base.specs.Hex.{is_long_name};

use crate::hex;
use crate::lsn::Lsn;
use crate::memory::OutOfMemory;
use crate::seg_size::SegSize;
use crate::text::Text;
use std::alloc::Global;

/// One file of the log: the bytes from `number` times the size on, as a timeline wrote them.
#[derive(Clone, Copy, Debug, PartialEq, Eq)]
pub struct Segment {
    /// The timeline.
    pub tli: u32,
    /// How many segments of this size stand before it.
    pub number: u64,
    /// The size of each segment of the log.
    pub size: SegSize,
}

impl Segment {
    ghost use Rattle.wal_base.specs.Segment.{bytes_of, name_of, segment_named, start_of};

    /// The segment of a timeline that holds a position.
    pub fn of(tli: u32, at: Lsn, size: SegSize) -> Segment
        ensures value { result ≡ record { tli = tli; number = at.0 / bytes_of size; size = size } }
        ensures fits { result.number * bytes_of size < 2 ^ 64 }
    {
        Segment {
            tli,
            number: at.0 / u64::from(size.bytes()),
            size,
        }
    }

    /// The position of its first byte.
    pub fn start(self) -> Lsn
        requires fits { self.number * bytes_of self.size < 2 ^ 64 }
        ensures value { result ≡ start_of self }
    {
        Lsn(self.number * u64::from(self.size.bytes()))
    }

    /// The name of its file: `%08X%08X%08X` of the timeline, the high half of its positions, and its number among
    /// the segments with that high half. Answers `OutOfMemory` only for want of memory.
    pub fn name(self, alloc: Global) -> Result<Text, OutOfMemory>
        requires fits { self.number * bytes_of self.size < 2 ^ 64 }
        ensures value { IfOk result (λ name. name ≡ name_of self) }
        ensures again { IfOk result (λ name. segment_named self.size name ≡ Some self) }
    {
        let tli = self.tli;
        let per_high = self.size.per_high();
        let high = self.number / per_high;
        let low = self.number % per_high;
        Ok(Text::from(format!(in alloc; "{tli:08X}{high:08X}{low:08X}")?))
    }

    /// The segment of this size that a file name names. `None` where the text isn't 24 digits 0 to 9 and A to F, or
    /// its last eight are no number of a segment within one high half.
    pub fn parse_name(text: &str, size: SegSize) -> Option<Segment>
        ensures value { result ≡ segment_named size text.now }
        ensures named { IfSome result (λ segment. name_of segment ≡ text.now) }
        ensures fits { IfSome result (λ segment. segment.number * bytes_of size < 2 ^ 64) }
    {
        let digits = text.as_bytes();
        if !is_long_name(digits) {
            return None;
        }
        let low = u64::from(hex::value(&digits[16..]));
        let per_high = size.per_high();
        if low >= per_high {
            return None;
        }
        let tli = hex::value(&digits[..8]);
        let high = u64::from(hex::value(&digits[8..16]));
        let number = high * per_high + low;
        Some(Segment { tli, number, size })
    }
}

/// Whether a name has the form of that of a segment file, 24 digits 0 to 9 and A to F
/// (`IsXLogFileName`). Which segment it names depends on the size of segments.
pub fn is_long_name(name: &[u8]) -> bool
    ensures { result ≡ is_long_name name.now }
{
    name.len() == 24 && hex::all_upper(name)
}
