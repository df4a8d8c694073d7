//! The timelines of a log, one after another.

ghost use Rattle.std.specs.Prelude.{◌≡◌, ◌≢◌, ◌++◌, [], ◌∷◌, length, slice_get, IfOk, OnOk, OnErr, IsSomeAnd};
ghost use Rattle.wal_base.specs.Segment.{bytes_of};
ghost use Rattle.wal_base.specs.Spans.{span_of_segment};

use crate::lsn::Lsn;
use crate::memory::OutOfMemory;
use crate::seg_size::SegSize;
use std::alloc::Global;
use std::marker::Model;

/// A timeline from one position to another.
#[derive(Clone, Copy, Debug, PartialEq, Eq)]
pub struct Span {
    /// The timeline.
    pub tli: u32,
    /// Its first position.
    pub begin: Lsn,
    /// The position at which it ends, or 0 where it isn't ended.
    pub end: Lsn,
}

/// The timelines of a log in order, which contracts see as a list: never empty, the last not ended.
#[derive(Debug, Drop)]
pub struct Spans {
    items: Vec<Span>,
}

impl Model for Spans {
    ghost use Rattle.std.specs.Prelude.{List};
    ghost use Rattle.wal_base.specs.declared.spans.Span.{Span};
    ghost use Rattle.wal_base.specs.Spans.{IsOpen};

    ghost Value = { List Span };

    ghost view = { λ s. s.items.items };

    ghost invariant = { λ s. IsOpen s.items.items };
}

impl Span {
    ghost use Rattle.wal_base.specs.Spans.{reaches, segment_end};

    /// Whether the span isn't ended, or ends at or past a segment's end.
    fn reaches_end(&self, number: u64, size: SegSize) -> bool
        ensures { result ≡ reaches (segment_end (bytes_of size) number) self.now }
    {
        let bytes = u64::from(size.bytes());
        let last = number.saturating_mul(bytes).saturating_add(bytes - 1);
        self.end.0 == 0 || last < self.end.0
    }
}

/// The first span that isn't ended, or ends at or past a segment's end.
fn first_reaching(spans: &[Span], number: u64, size: SegSize) -> Option<Span>
    ensures { result ≡ span_of_segment spans.now (bytes_of size) number }
{
    for span in spans {
        if span.reaches_end(number, size) {
            return Some(*span);
        }
    }
    None
}

impl Spans {
    ghost use Rattle.wal_base.specs.Spans.{IsOpen, open_span, last_ended, segment_tli};

    /// One timeline from position 0 on. Answers `OutOfMemory` only for want of memory.
    pub fn one(alloc: Global, tli: u32) -> Result<Spans, OutOfMemory>
        ensures ok { IfOk result (λ spans. spans ≡ open_span tli record { 0 = 0 } ∷ []) }
    {
        let mut items = Vec::new(alloc);
        items.push(Span {
            tli,
            begin: Lsn(0),
            end: Lsn(0),
        })?;
        Ok(Spans { items })
    }

    /// An equal list. Answers `OutOfMemory` only for want of memory.
    pub fn copy(&self, alloc: Global) -> Result<Spans, OutOfMemory>
        ensures ok { IfOk result (λ spans. spans ≡ self.now) }
    {
        Ok(Spans {
            items: self.items.to_vec(alloc)?,
        })
    }

    /// Ends the last span at `end`, and adds one of the timeline `tli` that begins there.
    /// Answers `OutOfMemory` only for want of memory, and then nothing has changed.
    pub fn end_and_add(&mut self, end: Lsn, tli: u32) -> Result<(), OutOfMemory>
        requires ends { end.0 ≢ 0 }
        ensures ok { OnOk result (self.new ≡ last_ended self.old end ++ open_span tli end ∷ []) }
        ensures err { OnErr result (self.new ≡ self.old) }
    {
        let last = self.items.len() - 1;
        self.items.push(Span {
            tli,
            begin: end,
            end: Lsn(0),
        })?;
        self.items[last].end = end;
        Ok(())
    }

    /// How many spans there are: at least one.
    pub fn len(&self) -> usize
        ensures value { result ≡ length self.now }
        ensures opened { IsOpen self.now }
    {
        self.items.len()
    }

    /// The span at a place, counted from 0, or `None` at and past the length.
    pub fn get(&self, at: usize) -> Option<Span>
        ensures value { result ≡ slice_get self.now at }
    {
        self.items.get(at).copied()
    }

    /// The timeline that a segment is read from: that of the first span that isn't ended, or whose end is at or past
    /// the segment's end. There always is one.
    pub fn segment_tli(&self, number: u64, size: SegSize) -> u32
        ensures value { result ≡ segment_tli self.now (bytes_of size) number }
        ensures first { IsSomeAnd (span_of_segment self.now (bytes_of size) number) (λ span. result ≡ span.tli) }
    {
        first_reaching(&self.items, number, size).unwrap().tli
    }
}
