//! A record of the log.

ghost use Rattle.std.specs.Prelude.{◌≡◌, ◌+◌, ◌^◌, ◌≤◌, [], length, IfSome, IfNone};
ghost use Rattle.wal_base.specs.Segment.{bytes_of};
ghost use Rattle.wal_records.specs.Extent.{behind_of};
ghost use Rattle.wal_records.specs.Header.{greatest_total};
ghost use Rattle.wal_records.specs.Reading.{record_of};
ghost use Rattle.wal_records.specs.Steps.{IsAll};

use crate::extent::behind;
use crate::header::{HEADER_SIZE, RecordHeader, header_of};
use std::alloc::Global;
use std::marker::Model;
use wal_base::{Lsn, SegSize};

/// A record of the log, its bytes put together from the pages that it spans.
#[derive(Debug, Drop)]
pub struct Record {
    start: Lsn,
    end: Lsn,
    header: RecordHeader,
    bytes: Vec<u8>,
}

impl Model for Record {
    ghost use Rattle.std.specs.Prelude.{◌≡◌, ◌≤◌, length, drop};
    ghost use Rattle.wal_records.specs.Header.{greatest_total};
    ghost use Rattle.wal_records.specs.Reading.{LogRecord};

    ghost Value = { LogRecord };

    ghost view = { λ r. record {
      start = r.start.0;
      end = r.end.0;
      header = r.header;
      body = drop 24 r.bytes.items;
    } };

    ghost invariant = { λ r. (24 ≤ length r.bytes.items) × (length r.bytes.items ≡ r.header.total)
        × (r.header.total ≤ greatest_total) };
}

impl Record {
    /// The record at `start` that ends at `end` and has these bytes.
    pub(crate) fn new(start: u64, end: u64, bytes: Vec<u8>) -> Record
        requires all { IsAll start end bytes.items }
        ensures value { result ≡ record_of start end bytes.items }
    {
        Record {
            start: Lsn(start),
            end: Lsn(end),
            header: header_of(&bytes),
            bytes,
        }
    }

    /// Where its first byte stands.
    pub fn start(&self) -> Lsn
        ensures value { result.0 ≡ self.now.start }
    {
        self.start
    }

    /// Where it ends: at the multiple of 8 behind its last byte, and a switch record at the end of
    /// the segment that holds its last byte.
    pub fn end(&self) -> Lsn
        ensures value { result.0 ≡ self.now.end }
    {
        self.end
    }

    /// The position behind its last byte, in segments of this size, or `None` where that is past
    /// all positions. Its end comes after it: up to 7 bytes on, and the end of a switch record is
    /// that of its segment.
    pub fn behind(&self, size: SegSize) -> Option<Lsn>
        ensures value { IfSome result (λ at.
            at.0 ≡ behind_of (bytes_of size) self.now.start self.now.header.total) }
        ensures none { IfNone result
            (2 ^ 64 ≤ behind_of (bytes_of size) self.now.start self.now.header.total) }
    {
        behind(size, self.start.0, self.header.total)
    }

    /// Its header.
    pub fn header(&self) -> RecordHeader
        ensures value { result ≡ self.now.header }
        ensures size { length self.now.body + 24 ≡ result.total }
    {
        self.header
    }

    /// The bytes behind its header: at most 1020 MiB less 24 bytes.
    pub fn body(&self) -> &[u8]
        ensures value { result.now ≡ self.now.body }
        ensures size { length result.now + 24 ≡ self.now.header.total }
        ensures bound { length result.now + 24 ≤ greatest_total }
    {
        &self.bytes[HEADER_SIZE..]
    }
}

/// The room that a record leaves for the next one, emptied.
pub fn emptied(last: Option<Record>, alloc: Global) -> Vec<u8>
    ensures { result.items ≡ [] }
{
    match last {
        Some(last) => {
            let mut bytes = last.bytes;
            bytes.clear();
            bytes
        }
        None => Vec::new(alloc),
    }
}
