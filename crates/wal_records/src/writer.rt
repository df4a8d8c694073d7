//! Writing a log.

ghost use Rattle.std.specs.Prelude.{◌≡◌, ℕ, ◌+◌, ◌%◌, ◌<◌, ◌≤◌, ◌^◌, ◌∷◌, [], ◌++◌, ◌↔◌, List, length, IfOk, OnErr};
ghost use Rattle.wal_base.specs.Segment.{bytes_of};
ghost use Rattle.wal_records.specs.declared.log_origin.LogOrigin.{LogOrigin};
ghost use Rattle.wal_records.specs.declared.write_fault.LogWriteFault.{LogWriteFault};
ghost use Rattle.wal_records.specs.Header.{greatest_total};
ghost use Rattle.wal_records.specs.Place.{place_at};
ghost use Rattle.wal_records.specs.Writer.{NewRecord, new_record, Written, begun, appended, written, end_from, in_pages, log_bytes_of};
ghost use Rattle.wal_records.specs.Stored.{Wrote};

use crate::extent::end_at;
use crate::header::{GREATEST_TOTAL, HEADER_SIZE, header_of};
use crate::log_origin::LogOrigin;
use crate::new_pages::{add_header, grow, lay};
use crate::new_record::record_bytes;
use crate::place::place_at;
use crate::write_fault::LogWriteFault;
use crate::zeros::ZeroEnded;
use std::alloc::Global;
use std::marker::Model;
use wal_base::{Lsn, OutOfMemory, SegSize};
use wal_pages::PAGE_SIZE;

/// Writes a log from a segment's start on, record by record.
#[derive(Drop)]
pub struct LogWriter {
    alloc: Global,
    origin: LogOrigin,
    before: Option<u64>,
    end: u64,
    pages: ZeroEnded,
}

impl Model for LogWriter {
    ghost use Rattle.wal_records.specs.Writer.{Written, IsWhole};

    ghost Value = { Written };

    ghost view = { λ w. record {
      origin = w.origin;
      before = w.before;
      end = w.end;
      bytes = w.pages.bytes;
    } };

    ghost invariant = { λ w. IsWhole w.origin w.end w.pages };
}

impl LogWriter {
    /// A log of no records, from a segment's start on, whose pages name this timeline and this
    /// system. Answers `OutOfMemory` only for want of memory.
    pub fn new(
        alloc: Global,
        start: Lsn,
        tli: u32,
        system: u64,
        size: SegSize,
    ) -> Result<LogWriter, OutOfMemory>
        requires starts { start.0 % bytes_of size ≡ 0 }
        requires low { start.0 < 2 ^ 63 }
        ensures ok { IfOk result (λ writer. writer
            ≡ begun record { start = start.0; tli = tli; system = system; size = size }) }
        ensures wrote { IfOk result (λ writer. Wrote writer []) }
    {
        let origin = LogOrigin {
            start: start.0,
            tli,
            system,
            size,
        };
        let mut pages = ZeroEnded::new(alloc);
        pages.grow(PAGE_SIZE as usize)?;
        add_header(&mut pages, origin, start.0, 0);
        Ok(LogWriter {
            alloc,
            origin,
            before: None,
            end: start.0,
            pages,
        })
    }

    /// Appends a record of a transaction, with the operation of its resource manager, and these
    /// bytes behind its header. Answers where it starts.
    ///
    /// Answers `TooLong` with the length of the record exactly where that is above 1020 MiB, and
    /// `OutOfMemory` only for want of memory; then nothing is changed.
    pub fn append(
        &mut self,
        xid: u32,
        info: u8,
        manager: u8,
        body: &[u8],
    ) -> Result<Lsn, LogWriteFault>
        requires manager { 22 ≤ manager → 128 ≤ manager }
        requires low { 24 + length body.now ≤ greatest_total → end_from self.old.origin
            self.old.before self.old.end (new_record xid info manager body.now) < 2 ^ 63 }
        ensures ok { IfOk result (λ start.
            self.new ≡ appended self.old (new_record xid info manager body.now)) }
        ensures near { IfOk result (λ start. self.new.end ≤ self.old.end + 2 ^ 32) }
        ensures start { IfOk result (λ start.
            start.0 ≡ place_at (bytes_of self.old.origin.size) self.old.end) }
        ensures more { IfOk result (λ start. (origin : LogOrigin) (records : List NewRecord) →
            self.old ≡ written origin records →
            self.new ≡ written origin (records ++ new_record xid info manager body.now ∷ [])) }
        ensures wrote { IfOk result (λ start. (records : List NewRecord) → Wrote self.old records →
            Wrote self.new (records ++ new_record xid info manager body.now ∷ [])) }
        ensures too_long { (total : ℕ) → result ≡ Err (LogWriteFault.TooLong total) ↔
            (total ≡ 24 + length body.now) × (greatest_total < 24 + length body.now) }
        ensures kept { OnErr result (self.new ≡ self.old) }
    {
        let total = HEADER_SIZE as u64 + body.len() as u64;
        if total > u64::from(GREATEST_TOTAL) {
            return Err(LogWriteFault::TooLong(total));
        }
        let place = place_at(Lsn(self.end), self.origin.size);
        let bytes = record_bytes(self.alloc, self.before, xid, info, manager, body)?;
        let Some(end) = end_at(self.origin.size, header_of(&bytes), place.0, total as u32) else {
            unreachable!()
        };
        grow(&mut self.pages, end - self.origin.start)?;
        lay(&mut self.pages, self.origin, self.end, place.0, end, &bytes);
        self.before = Some(place.0);
        self.end = end;
        Ok(place)
    }

    /// Where the last record ends, or where the log begins if there is none. The next record ends
    /// less than 2^32 bytes further on.
    pub fn position(&self) -> Lsn
        ensures value { result.0 ≡ self.now.end }
        ensures near { (r : NewRecord) → 24 + length r.body ≤ greatest_total →
            end_from self.now.origin self.now.before self.now.end r ≤ result.0 + 2 ^ 32 }
    {
        Lsn(self.end)
    }

    /// The bytes of the log so far, in whole pages: the last one goes on in zeros.
    pub fn bytes(&self) -> &[u8]
        ensures value { result.now ≡ in_pages self.now.bytes }
        ensures log { (origin : LogOrigin) (records : List NewRecord) →
            self.now ≡ written origin records → result.now ≡ log_bytes_of origin records }
    {
        self.pages.as_slice()
    }
}
