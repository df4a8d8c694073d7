//! The dates of day numbers, which count from 1970-01-01.

ghost use Rattle.std.specs.Prelude.{◌≡◌, ◌-◌, ◌≤ℤ◌, pos, neg_ℤ, get_or, []};
ghost use Rattle.control_file.specs.Names.{month_names, weekday_names};
ghost use Rattle.control_file.specs.Time.{month_day_of, month_of, year_of};
ghost use Rattle.jiff_core.specs.Calendar.{IsBetween, weekday_number};
ghost use Rattle.jiff_core.specs.Date.{epoch_day};

use crate::names::{month_name, weekday_name};
use jiff::ToSpan;
use jiff::civil::{Date, date};

/// The date of a day number.
pub fn date_of(day: i64) -> Date
    requires { IsBetween (neg_ℤ (pos 719162)) (pos 2932896) day }
    ensures { epoch_day result ≡ day }
{
    let epoch = date(1970, 1, 1);
    epoch.checked_add(day.days()).unwrap()
}

/// The name of a date's day of the week.
pub fn weekday_of(day: Date) -> &'static str
    ensures { result.now ≡ get_or weekday_names (weekday_number (epoch_day day)) [] }
{
    weekday_name(day.weekday().to_monday_zero_offset() as usize)
}

/// The name of a date's month.
pub fn month_of(day: Date) -> &'static str
    requires { neg_ℤ (pos 719162) ≤ℤ epoch_day day }
    ensures { result.now ≡ get_or month_names (month_of (epoch_day day) - 1) [] }
{
    month_name(day.month() as usize - 1)
}

/// A date's day of the month, from 1.
pub fn month_day_of(day: Date) -> u8
    requires { neg_ℤ (pos 719162) ≤ℤ epoch_day day }
    ensures { result ≡ month_day_of (epoch_day day) }
{
    day.day() as u8
}

/// A date's year.
pub fn year_of(day: Date) -> u16
    requires { neg_ℤ (pos 719162) ≤ℤ epoch_day day }
    ensures { result ≡ year_of (epoch_day day) }
{
    day.year() as u16
}
