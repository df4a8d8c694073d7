//! How long each way took.

use anyhow::Result;
use std::fmt;
use std::rt::Clock;
use std::time::Instant;

/// How many microseconds each way took over so many bytes.
#[derive(Clone, Copy, Debug)]
pub struct Pace {
    pub len: u64,
    /// Appending all records.
    pub writing: u64,
    /// The CRC-32C of all bytes.
    pub summing: u64,
    /// Reading all records by `next`.
    pub reading: u64,
    /// Reading all records by `next_unchanged`.
    pub unchanged: u64,
}

/// Bytes in a microsecond, which are MB in a second.
fn rate(len: u64, micros: u64) -> u64 {
    len.checked_div(micros).unwrap_or(0)
}

impl fmt::Display for Pace {
    fn fmt<W: fmt::Write>(&self, f: &mut fmt::Formatter<W>) -> fmt::Result {
        let writing = rate(self.len, self.writing);
        let reading = rate(self.len, self.reading);
        let unchanged = rate(self.len, self.unchanged);
        let summing = rate(self.len, self.summing);
        write!(f, "written {writing} MB/s, read {reading} MB/s, ")?;
        write!(f, "read unchanged {unchanged} MB/s, summed {summing} MB/s")
    }
}

/// The microseconds since a start.
pub fn micros_since(clock: &impl Clock, start: Instant) -> Result<u64> {
    let micros = start.elapsed(clock)?.as_micros();
    Ok(u64::try_from(micros).unwrap_or(u64::MAX))
}
