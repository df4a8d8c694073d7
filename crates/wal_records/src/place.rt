//! Places of records in the pages of a log.

ghost use Rattle.std.specs.Prelude.{◌≡◌, ◌≤◌, ◌%◌, IsTrue};
ghost use Rattle.wal_base.specs.Segment.{bytes_of};
ghost use Rattle.wal_records.specs.Place.{place_at, is_place};
ghost use Rattle.wal_records.specs.Reading.{continues_at};

use wal_base::{Lsn, SegSize};
use wal_pages::{FIRST_IS_CONTRECORD, LONG_HEADER_SIZE, PAGE_SIZE, header_size, page_of};

/// The place at which a record can start that begins at a position: 40 bytes on at a segment's
/// start, 24 at another page's start, behind the page's header, and else the position itself.
pub fn place_at(at: Lsn, size: SegSize) -> Lsn
    ensures value { result.0 ≡ place_at (bytes_of size) at.0 }
    ensures up { at.0 ≤ result.0 }
{
    if at.0 % PAGE_SIZE == 0 {
        Lsn(at.0 + header_size(at, size))
    } else {
        at
    }
}

/// Whether a record can start at a position: a multiple of 8 that isn't in its page's header. Which
/// header that is, a division by the segment size, is asked for only where it counts.
#[tactic(auto, using(crate::proofs::FurtherLemmas::header_short))]
pub fn is_place(at: Lsn, size: SegSize) -> bool
    ensures value { result ≡ is_place (bytes_of size) at.0 }
    ensures whole { IsTrue result → at.0 % 8 ≡ 0 }
{
    let offset = at.0 % PAGE_SIZE;
    at.0 % 8 == 0 && (offset >= LONG_HEADER_SIZE || offset >= header_size(page_of(at), size))
}

/// Whether a place stands right behind the header of a page whose first bytes go on with a record.
#[tactic(auto, using(crate::proofs::FurtherLemmas::header_short))]
pub fn continues_at(at: Lsn, size: SegSize, info: u16) -> bool
    ensures value { result ≡ continues_at (bytes_of size) at.0 info }
{
    let offset = at.0 % PAGE_SIZE;
    offset <= LONG_HEADER_SIZE
        && info & FIRST_IS_CONTRECORD != 0
        && offset == header_size(page_of(at), size)
}
