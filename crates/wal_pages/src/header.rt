//! The header of a page.

ghost use Rattle.std.specs.Prelude.{◌≡◌, ◌≤◌, length};
ghost use Rattle.wal_base.specs.Segment.{bytes_of};
ghost use Rattle.wal_pages.specs.Header.{header_of, header_size, page_of};

use layout::{u16_at, u32_at, u64_at};
use wal_base::{Lsn, SegSize};

/// How many bytes a page of the log has (`XLOG_BLCKSZ`).
pub const PAGE_SIZE: u64 = 8192;

/// How many bytes the header of a page has that isn't a segment's first (`SizeOfXLogShortPHD`).
pub const SHORT_HEADER_SIZE: u64 = 24;

/// How many bytes the header of a segment's first page has (`SizeOfXLogLongPHD`).
pub const LONG_HEADER_SIZE: u64 = 40;

/// The bit of a page whose first bytes go on with a record (`XLP_FIRST_IS_CONTRECORD`).
pub const FIRST_IS_CONTRECORD: u16 = 1;

/// The bit of a page with the long header (`XLP_LONG_HEADER`).
pub const LONG_HEADER: u16 = 2;

/// The bit of a page whose blocks may be removed (`XLP_BKP_REMOVABLE`).
pub const REMOVABLE: u16 = 4;

/// The bit of a page that drops the record begun before it (`XLP_FIRST_IS_OVERWRITE_CONTRECORD`).
pub const FIRST_IS_OVERWRITE_CONTRECORD: u16 = 8;

/// What the header of a page says (`XLogPageHeaderData`).
#[derive(Clone, Copy, Debug, PartialEq, Eq)]
pub struct PageHeader {
    /// Its flags (`xlp_info`).
    pub info: u16,
    /// The timeline of the first record on the page (`xlp_tli`).
    pub tli: u32,
    /// The position of the page (`xlp_pageaddr`).
    pub address: Lsn,
    /// How many bytes of a record that began before are still to come (`xlp_rem_len`).
    pub remaining: u32,
}

/// The position at which the page that holds a position begins.
pub fn page_of(at: Lsn) -> Lsn
    ensures value { result.0 ≡ page_of at.0 }
    ensures before { result.0 ≤ at.0 }
{
    Lsn(at.0 / PAGE_SIZE * PAGE_SIZE)
}

/// How many bytes the header of the page has that begins at a position: 40 at a segment's start,
/// else 24.
pub fn header_size(at: Lsn, size: SegSize) -> u64
    ensures value { result ≡ header_size (bytes_of size) at.0 }
    ensures most { result ≤ 40 }
{
    if at.0 % u64::from(size.bytes()) == 0 {
        LONG_HEADER_SIZE
    } else {
        SHORT_HEADER_SIZE
    }
}

/// The header at the front of a page.
pub fn header_of(page: &[u8]) -> PageHeader
    requires room { 24 ≤ length page.now }
    ensures value { result ≡ header_of page.now }
{
    PageHeader {
        info: u16_at(page, 2),
        tli: u32_at(page, 4),
        address: Lsn(u64_at(page, 8)),
        remaining: u32_at(page, 16),
    }
}
