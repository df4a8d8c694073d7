//! The ways in turn, so that what else the machine does slows all.

use crate::passes::{copy_pass, crc_pass, read_pass};
use crate::segment::SegmentLog;
use anyhow::Result;
use std::fmt;
use std::rt::Clock;
use std::time::Instant;

/// The least times in which the segment of 1 MiB was gone through, in microseconds.
#[derive(Clone, Copy, Debug)]
pub struct Race {
    /// Read page by page.
    pub read: u64,
    /// Summed.
    pub crc: u64,
    /// Copied page by page.
    pub copy: u64,
    /// What the passes gave, so that none is left out.
    pub total: u64,
}

/// Bytes of a MiB in a microsecond, which are MB in a second.
fn rate(micros: u64) -> u64 {
    1_048_576u64.checked_div(micros).unwrap_or(0)
}

impl fmt::Display for Race {
    fn fmt<W: fmt::Write>(&self, f: &mut fmt::Formatter<W>) -> fmt::Result {
        let read = rate(self.read);
        let crc = rate(self.crc);
        let copy = rate(self.copy);
        let total = self.total;
        write!(
            f,
            "the fastest MiB: pages {read} MB/s, crc {crc} MB/s, copy {copy} MB/s ({total})"
        )
    }
}

/// The microseconds since a start.
fn micros_since(clock: &impl Clock, start: Instant) -> Result<u64> {
    let micros = start.elapsed(clock)?.as_micros();
    Ok(u64::try_from(micros).unwrap_or(u64::MAX))
}

impl Race {
    /// Goes through the segment so often in each way.
    pub fn run(clock: &impl Clock, log: &mut SegmentLog, count: u32) -> Result<Race> {
        let mut race = Race {
            read: u64::MAX,
            crc: u64::MAX,
            copy: u64::MAX,
            total: 0,
        };
        for _ in 0..count {
            race.read = race.read.min(race.time_pages(clock, log)?);
            race.crc = race.crc.min(race.time_crc(clock, log)?);
            race.copy = race.copy.min(race.time_copy(clock, log)?);
        }
        Ok(race)
    }

    /// Reads the segment page by page, and tells the microseconds.
    fn time_pages(&mut self, clock: &impl Clock, log: &mut SegmentLog) -> Result<u64> {
        let start = Instant::now(clock)?;
        let read = read_pass(&mut log.cursor, &mut log.tree)?;
        self.total = self.total.wrapping_add(read as u64);
        micros_since(clock, start)
    }

    /// Sums the segment, and tells the microseconds.
    fn time_crc(&mut self, clock: &impl Clock, log: &SegmentLog) -> Result<u64> {
        let start = Instant::now(clock)?;
        let sum = crc_pass(&log.bytes);
        self.total = self.total.wrapping_add(u64::from(sum));
        micros_since(clock, start)
    }

    /// Copies the segment page by page, and tells the microseconds.
    fn time_copy(&mut self, clock: &impl Clock, log: &SegmentLog) -> Result<u64> {
        let start = Instant::now(clock)?;
        let copied = copy_pass(&log.bytes, &mut [0; 8192]);
        self.total = self.total.wrapping_add(copied as u64);
        micros_since(clock, start)
    }
}
