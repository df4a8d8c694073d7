//! Both bodies in turn, so that what else the machine does slows both.

ghost use Rattle.std.specs.Prelude.{◌+◌, ◌≤◌, length};
ghost use Rattle.crc_bench.specs.declared.bodies.TheConstants.{SIZE, PLACES};

use crate::bodies::{PLACES, SIZE, fast_mebibyte, plain_mebibyte};
use std::rt::Clock;
use std::time::Instant;
use std::{fmt, io};

/// The least times in which a MiB was summed, in microseconds.
#[derive(Clone, Copy, Debug)]
pub struct Race {
    /// By the plain body.
    pub plain: u64,
    /// By the fast body.
    pub fast: u64,
    /// Whether both gave the same sums.
    pub agree: bool,
}

/// Bytes of a MiB in a microsecond, which are MB in a second.
fn rate(micros: u64) -> u64 {
    1_048_576u64.checked_div(micros).unwrap_or(0)
}

impl fmt::Display for Race {
    fn fmt<W: fmt::Write>(&self, f: &mut fmt::Formatter<W>) -> fmt::Result {
        let plain = rate(self.plain);
        let fast = rate(self.fast);
        write!(f, "the fastest MiB: plain {plain} MB/s, fast {fast} MB/s")
    }
}

/// The microseconds since a start.
fn micros_since(clock: &impl Clock, start: Instant) -> io::Result<u64> {
    let micros = start.elapsed(clock)?.as_micros();
    Ok(u64::try_from(micros).unwrap_or(u64::MAX))
}

impl Race {
    /// Sums so many MiB by each body.
    pub fn run(clock: &impl Clock, bytes: &[u8], count: u32) -> io::Result<Race>
        requires { SIZE + PLACES ≤ length bytes.now }
    {
        let mut race = Race {
            plain: u64::MAX,
            fast: u64::MAX,
            agree: true,
        };
        for _ in 0..count {
            let start = Instant::now(clock)?;
            let plain = plain_mebibyte(bytes);
            race.plain = race.plain.min(micros_since(clock, start)?);
            let start = Instant::now(clock)?;
            let fast = fast_mebibyte(bytes);
            race.fast = race.fast.min(micros_since(clock, start)?);
            race.agree = race.agree && plain == fast;
        }
        Ok(race)
    }
}
