//! Times as text.

ghost use Rattle.std.specs.Prelude.{◌≡◌, ◌<◌, ◌≤◌, ◌++◌, ◌≤ℤ◌, pos, neg_ℤ, IfOk, string_bytes};
ghost use Rattle.control_file.specs.Time.{time_text, civil_text, day_text, clock_text};
ghost use Rattle.jiff_core.specs.Date.{epoch_day};

use crate::calendar::{date_of, month_day_of, month_of, weekday_of, year_of};
use jiff::civil::Date;
use std::alloc::AllocError;

/// The seconds of a day.
const DAY: i64 = 86_400;

/// The first second of the year 1.
const FIRST_SECOND: i64 = -62_135_596_800;

/// The last second of the year 9999.
const LAST_SECOND: i64 = 253_402_300_799;

/// Appends a time in seconds since 1970, at UTC, as `Tue Nov 14 22:13:20 2023`; outside the years
/// 1 to 9999 the number of seconds.
pub fn push_time(out: &mut String, seconds: i64) -> Result<(), AllocError>
    ensures { IfOk result (λ _. string_bytes out.new ≡ string_bytes out.old ++ time_text seconds) }
{
    if seconds < FIRST_SECOND || LAST_SECOND < seconds {
        return write!(out, "{seconds}");
    }
    push_civil(
        out,
        date_of(seconds.div_euclid(DAY)),
        seconds.rem_euclid(DAY) as u32,
    )
}

/// Appends a day's date and a second of the day.
fn push_civil(out: &mut String, day: Date, second: u32) -> Result<(), AllocError>
    requires from { neg_ℤ (pos 719162) ≤ℤ epoch_day day }
    requires within { second < 86400 }
    ensures { IfOk result (λ _. string_bytes out.new ≡
        string_bytes out.old ++ civil_text (epoch_day day) second) }
{
    push_day(out, day)?;
    out.push_str(" ")?;
    push_clock(out, second)?;
    let year = year_of(day);
    write!(out, " {year}")
}

/// Appends a date without its year.
fn push_day(out: &mut String, day: Date) -> Result<(), AllocError>
    requires { neg_ℤ (pos 719162) ≤ℤ epoch_day day }
    ensures { IfOk result (λ _. string_bytes out.new ≡ string_bytes out.old ++ day_text (epoch_day day)) }
{
    let weekday = weekday_of(day);
    let month = month_of(day);
    let place = month_day_of(day);
    write!(out, "{weekday} {month} {place:>2}")
}

/// Appends a second of the day.
fn push_clock(out: &mut String, second: u32) -> Result<(), AllocError>
    requires { second < 86400 }
    ensures { IfOk result (λ _. string_bytes out.new ≡ string_bytes out.old ++ clock_text second) }
{
    let hour = second / 3600;
    let minute = second % 3600 / 60;
    let second = second % 60;
    write!(out, "{hour:02}:{minute:02}:{second:02}")
}
