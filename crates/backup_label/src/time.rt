// A time as a label shows it.
ghost use Rattle.std.specs.Prelude.{◌≡◌, ◌<◌, ◌≤ℤ◌, pos, neg_ℤ, IfOk, string_bytes};
ghost use Rattle.jiff_core.specs.Date.{epoch_day};
ghost use Rattle.backup_label.specs.Time.{label_time, moment_text};

use crate::calendar::{date_of, month_day_of, month_of, year_of};
use jiff::civil::Date;
use std::alloc::Global;
use wal_base::OutOfMemory;

/// The seconds of a day.
const DAY: i64 = 86_400;

/// The first second of the year 1.
const FIRST_SECOND: i64 = -62_135_596_800;

/// The last second of the year 9999.
const LAST_SECOND: i64 = 253_402_300_799;

/// A time in seconds since 1970, at UTC, as `2023-11-14 22:13:20 UTC`; outside the years 1 to 9999
/// the number of seconds.
pub(crate) fn time_text(alloc: Global, seconds: i64) -> Result<String, OutOfMemory>
    ensures { IfOk result (λ text. string_bytes text ≡ label_time seconds) }
{
    if seconds < FIRST_SECOND || LAST_SECOND < seconds {
        return Ok(format!(in alloc; "{seconds}")?);
    }
    moment_text(
        alloc,
        date_of(seconds.div_euclid(DAY)),
        seconds.rem_euclid(DAY) as u32,
    )
}

// A date and a second of that day.
fn moment_text(alloc: Global, day: Date, second: u32) -> Result<String, OutOfMemory>
    requires from { neg_ℤ (pos 719162) ≤ℤ epoch_day day }
    requires within { second < 86400 }
    ensures { IfOk result (λ text. string_bytes text ≡ moment_text (epoch_day day) second) }
{
    let year = year_of(day);
    let month = month_of(day);
    let place = month_day_of(day);
    let hour = second / 3600;
    let minute = second % 3600 / 60;
    let second = second % 60;
    Ok(format!(in alloc; "{year:04}-{month:02}-{place:02} {hour:02}:{minute:02}:{second:02} UTC")?)
}
