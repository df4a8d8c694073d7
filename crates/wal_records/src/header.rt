//! The header of a record.

ghost use Rattle.std.specs.Prelude.{◌≡◌, ◌≤◌, length, IfNone};
ghost use Rattle.wal_records.specs.Header.{header_of, length_fault, header_fault, checksum, greatest_total};
ghost use Rattle.wal_records.specs.Spells.{LinksTo};

use crate::why::Why;
use layout::{u8_at, u32_at, u64_at};
use wal_base::{Crc32c, Lsn};

/// How many bytes the header of a record has (`SizeOfXLogRecord`).
pub const HEADER_SIZE: usize = 24;

/// The most bytes that a record has: 1020 MiB (`XLogRecordMaxSize`).
pub const GREATEST_TOTAL: u32 = 1020 << 20;

/// The header of a record (`XLogRecord`).
#[derive(Clone, Copy, Debug, PartialEq, Eq)]
pub struct RecordHeader {
    /// How many bytes the record has, its header included (`xl_tot_len`).
    pub total: u32,
    /// The transaction that wrote it, or 0 (`xl_xid`).
    pub xid: u32,
    /// Where the record before it starts, or 0 (`xl_prev`).
    pub prev: Lsn,
    /// Its operation, and flags of its resource manager (`xl_info`).
    pub info: u8,
    /// Its resource manager (`xl_rmid`).
    pub manager: u8,
    /// The CRC-32C of its body and then of the first 20 bytes of its header (`xl_crc`).
    pub crc: u32,
}

/// The header at the front of a record's bytes.
pub fn header_of(bytes: &[u8]) -> RecordHeader
    requires room { 24 ≤ length bytes.now }
    ensures value { result ≡ header_of bytes.now }
{
    RecordHeader {
        total: u32_at(bytes, 0),
        xid: u32_at(bytes, 4),
        prev: Lsn(u64_at(bytes, 8)),
        info: u8_at(bytes, 16),
        manager: u8_at(bytes, 17),
        crc: u32_at(bytes, 20),
    }
}

/// What is wrong with a record's length, if anything is.
pub fn length_fault(total: u32) -> Option<Why>
    ensures value { result ≡ length_fault total }
    ensures least { IfNone result (24 ≤ total) }
    ensures greatest { IfNone result (total ≤ greatest_total) }
{
    if total == 0 {
        Some(Why::ZeroLength)
    } else if total < 24 {
        Some(Why::ShortLength)
    } else if total > GREATEST_TOTAL {
        Some(Why::TooLong)
    } else {
        None
    }
}

/// What is wrong with the header of the record at a place but for its length, if anything is, where
/// the record before it starts at `before`.
pub fn header_fault(before: Option<u64>, place: u64, header: RecordHeader) -> Option<Why>
    ensures value { result ≡ header_fault before place header }
    ensures linked { IfNone result (LinksTo before place header.prev.0) }
{
    if header.manager >= 22 && header.manager < 128 {
        return Some(Why::Manager);
    }
    let linked = match before {
        Some(before) => header.prev.0 == before,
        None => header.prev.0 < place,
    };
    if linked { None } else { Some(Why::Prev) }
}

/// The checksum of a record's bytes.
pub fn checksum(bytes: &[u8]) -> u32
    requires room { 24 ≤ length bytes.now }
    ensures value { result ≡ checksum bytes.now }
{
    let mut crc = Crc32c::new();
    crc.add(&bytes[24..]);
    crc.add(&bytes[..20]);
    crc.value()
}
