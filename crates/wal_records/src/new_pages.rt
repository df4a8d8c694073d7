//! Pages of a log that is written.

ghost use Rattle.std.specs.Prelude.{◌≡◌, ◌+◌, ◌-◌, ◌<◌, ◌≤◌, ◌%◌, ◌^◌, ◌++◌, length, replicate, OnOk, OnErr};
ghost use Rattle.wal_base.specs.Segment.{bytes_of};
ghost use Rattle.wal_records.specs.Header.{greatest_total};
ghost use Rattle.wal_pages.specs.Header.{header_size};
ghost use Rattle.wal_records.specs.Writer.{page_info, short_header, long_header, page_header, lead, laid, whole_pages};
ghost use Rattle.wal_records.specs.Zeros.{with_bytes};

use crate::further::room_of;
use crate::log_origin::LogOrigin;
use crate::zeros::ZeroEnded;
use std::alloc::AllocError;
use wal_base::SegSize;
use wal_pages::{FIRST_IS_CONTRECORD, LONG_HEADER, PAGE_SIZE};

/// The magic number of version 16 (`XLOG_PAGE_MAGIC`).
const MAGIC: u16 = 0xD113;

/// The flags of the page at a position, on which so many bytes of a record begun before are still
/// to come.
fn page_info(size: SegSize, at: u64, remaining: u32) -> u16
    ensures { result ≡ page_info (bytes_of size) at remaining }
{
    let goes_on = if remaining == 0 {
        0
    } else {
        FIRST_IS_CONTRECORD
    };
    let is_long = if at % u64::from(size.bytes()) == 0 {
        LONG_HEADER
    } else {
        0
    };
    goes_on + is_long
}

/// Adds what a segment's first page has behind the header of any page.
fn add_long(into: &mut ZeroEnded, origin: LogOrigin)
    requires room { 16 ≤ into.old.zeros }
    ensures { into.new ≡ with_bytes into.old (long_header origin) }
{
    into.add(&origin.system.to_le_bytes());
    into.add(&origin.size.bytes().to_le_bytes());
    into.add(&(PAGE_SIZE as u32).to_le_bytes());
}

/// Adds what each page's header has.
fn add_short(into: &mut ZeroEnded, origin: LogOrigin, at: u64, remaining: u32)
    requires room { 24 ≤ into.old.zeros }
    ensures { into.new ≡ with_bytes into.old (short_header origin at remaining) }
{
    into.add(&MAGIC.to_le_bytes());
    into.add(&page_info(origin.size, at, remaining).to_le_bytes());
    into.add(&origin.tli.to_le_bytes());
    into.add(&at.to_le_bytes());
    into.add(&remaining.to_le_bytes());
    into.pass(4);
}

/// Adds the header of the page at a position, on which so many bytes of a record begun before are
/// still to come.
pub fn add_header(into: &mut ZeroEnded, origin: LogOrigin, at: u64, remaining: u32)
    requires room { header_size (bytes_of origin.size) at ≤ into.old.zeros }
    ensures { into.new ≡ with_bytes into.old (page_header origin at remaining) }
{
    add_short(into, origin, at, remaining);
    if at % u64::from(origin.size.bytes()) == 0 {
        add_long(into, origin);
    }
}

/// Adds the bytes of a record from its place on, over its further pages.
pub fn add_record(into: &mut ZeroEnded, origin: LogOrigin, place: u64, bytes: &[u8])
    requires room { length (laid origin place bytes.now) ≤ into.old.zeros }
    requires longest { length bytes.now ≤ greatest_total }
    requires low { place + length (laid origin place bytes.now) < 2 ^ 63 }
    ensures { into.new ≡ with_bytes into.old (laid origin place bytes.now) }
{
    let first = bytes.len().min((PAGE_SIZE - place % PAGE_SIZE) as usize);
    into.add(&bytes[..first]);
    let mut number = place / PAGE_SIZE + 1;
    let mut from = first;
    while from < bytes.len() {
        let left = (bytes.len() - from) as u32;
        add_header(into, origin, number * PAGE_SIZE, left);
        let next = from + left.min(room_of(number, origin.size)) as usize;
        into.add(&bytes[from..next]);
        from = next;
        number += 1;
    }
}

/// Adds zeros, so that the pages reach over so many bytes.
pub fn grow(pages: &mut ZeroEnded, size: u64) -> Result<(), AllocError>
    requires fits { length pages.old.bytes + pages.old.zeros ≤ whole_pages size }
    requires low { size < 2 ^ 63 }
    ensures ok { OnOk result (pages.new ≡ record {
      bytes = pages.old.bytes;
      zeros = whole_pages size - length pages.old.bytes;
    }) }
    ensures err { OnErr result (pages.new ≡ pages.old) }
{
    pages.grow(((size + PAGE_SIZE - 1) / PAGE_SIZE * PAGE_SIZE) as usize)
}

/// Adds the header of the page that begins where a record is appended, unless it stands already.
fn add_lead(pages: &mut ZeroEnded, origin: LogOrigin, at: u64)
    requires room { length (lead origin at) ≤ pages.old.zeros }
    ensures { pages.new ≡ with_bytes pages.old (lead origin at) }
{
    if at != origin.start && at % PAGE_SIZE == 0 {
        add_header(pages, origin, at, 0);
    }
}

/// Adds a record that is appended at a position, has its place there, and ends there: the header
/// of its page, where it begins one; its bytes; and zeros up to its end.
pub fn lay(pages: &mut ZeroEnded, origin: LogOrigin, at: u64, place: u64, end: u64, bytes: &[u8])
    requires longest { length bytes.now ≤ greatest_total }
    requires start { origin.start + length pages.old.bytes + length (lead origin at) ≡ place }
    requires fits { place + length (laid origin place bytes.now) ≤ end }
    requires room { end - origin.start ≤ length pages.old.bytes + pages.old.zeros }
    requires low { end < 2 ^ 63 }
    ensures { pages.new ≡ with_bytes pages.old (lead origin at ++ laid origin place bytes.now
        ++ replicate (end - (place + length (laid origin place bytes.now))) 0) }
{
    add_lead(pages, origin, at);
    add_record(pages, origin, place, bytes);
    let behind = origin.start + pages.len() as u64;
    pages.pass((end - behind) as usize);
}
