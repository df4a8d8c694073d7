//! Where a record ends.

ghost use Rattle.std.specs.Prelude.{◌≡◌, ◌+◌, ◌*◌, ◌<◌, ◌≤◌, ◌^◌, IfSome, IfNone};
ghost use Rattle.wal_base.specs.Segment.{bytes_of};
ghost use Rattle.wal_records.specs.Extent.{behind_of, end_of, is_switch};

use crate::header::RecordHeader;
use wal_base::{Lsn, SegSize};
use wal_pages::{PAGE_SIZE, header_size};

/// How many pages positions below 2^64 have.
pub const PAGES: u64 = 1 << 51;

/// A page by its number, and a place in it, counted from its first byte.
#[derive(Clone, Copy)]
pub struct InPage {
    /// How many pages stand before it.
    pub number: u64,
    /// Up to 8192.
    pub offset: u64,
}

/// Where the last byte of a record of `total` bytes at a place is followed, or `None` where no
/// segment can hold its last page.
fn behind_of(size: SegSize, place: u64, total: u32) -> Option<InPage>
    requires some { 0 < total }
    ensures value { IfSome result (λ behind.
        behind.number * 8192 + behind.offset ≡ behind_of (bytes_of size) place total) }
    ensures some { IfSome result (λ behind. 0 < behind.offset) }
    ensures page { IfSome result (λ behind. behind.offset ≤ 8192) }
    ensures low { IfSome result (λ behind. behind.number < 2 ^ 51) }
    ensures none { IfNone result (2 ^ 64 ≤ behind_of (bytes_of size) place total) }
{
    let first = u64::from(total).min(PAGE_SIZE - place % PAGE_SIZE);
    let mut number = place / PAGE_SIZE;
    let mut offset = place % PAGE_SIZE + first;
    let mut left = u64::from(total) - first;
    while left > 0 {
        number += 1;
        if number == PAGES {
            return None;
        }
        let head = header_size(Lsn(number * PAGE_SIZE), size);
        offset = head + left.min(PAGE_SIZE - head);
        left = left.saturating_sub(PAGE_SIZE - head);
    }
    Some(InPage { number, offset })
}

/// The position behind the last byte of a record of `total` bytes at a place, or `None` where it is
/// past all positions.
pub fn behind(size: SegSize, place: u64, total: u32) -> Option<Lsn>
    requires some { 0 < total }
    ensures value { IfSome result (λ at. at.0 ≡ behind_of (bytes_of size) place total) }
    ensures none { IfNone result (2 ^ 64 ≤ behind_of (bytes_of size) place total) }
{
    match behind_of(size, place, total) {
        None => None,
        Some(behind) => (behind.number * PAGE_SIZE)
            .checked_add(behind.offset)
            .map(Lsn),
    }
}

/// Whether it is the header of a switch record (`XLOG_SWITCH`).
pub fn is_switch(header: RecordHeader) -> bool
    ensures value { result ≡ is_switch header }
{
    header.manager == 0 && header.info / 16 == 4
}

/// Where a record ends whose last byte is followed by this place of a page, if below 2^64.
fn end_of(size: SegSize, header: RecordHeader, behind: InPage) -> Option<u64>
    requires some { 0 < behind.offset }
    requires page { behind.offset ≤ 8192 }
    requires low { behind.number < 2 ^ 51 }
    ensures some { IfSome result (λ end.
        end ≡ end_of (bytes_of size) header (behind.number * 8192 + behind.offset)) }
    ensures none { IfNone result
        (2 ^ 64 ≤ end_of (bytes_of size) header (behind.number * 8192 + behind.offset)) }
{
    let start = behind.number * PAGE_SIZE;
    if is_switch(header) {
        let bytes = u64::from(size.bytes());
        ((start + (behind.offset - 1)) / bytes * bytes).checked_add(bytes)
    } else {
        start.checked_add((behind.offset + 7) / 8 * 8)
    }
}

/// Where the record of `total` bytes at a place ends that has this header, if below 2^64: at the
/// next multiple of 8 behind its last byte, and a switch record at its segment's end.
pub fn end_at(size: SegSize, header: RecordHeader, place: u64, total: u32) -> Option<u64>
    requires some { 0 < total }
    ensures some { IfSome result (λ end.
        end ≡ end_of (bytes_of size) header (behind_of (bytes_of size) place total)) }
    ensures none { IfNone result
        (2 ^ 64 ≤ end_of (bytes_of size) header (behind_of (bytes_of size) place total)) }
    ensures up { place + total ≤ end_of (bytes_of size) header (behind_of (bytes_of size) place total) }
{
    match behind_of(size, place, total) {
        None => None,
        Some(behind) => end_of(size, header, behind),
    }
}
