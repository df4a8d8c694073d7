// The dates of day numbers, which count from 1970-01-01.
ghost use Rattle.std.specs.Prelude.{◌≡◌, ◌≤ℤ◌, pos, neg_ℤ};
ghost use Rattle.control_file.specs.Time.{month_day_of, month_of, year_of};
ghost use Rattle.jiff_core.specs.Calendar.{IsBetween};
ghost use Rattle.jiff_core.specs.Date.{epoch_day};

use jiff::ToSpan;
use jiff::civil::{Date, date};

/// The date of a day number of the years 1 to 9999.
pub(crate) fn date_of(day: i64) -> Date
    requires { IsBetween (neg_ℤ (pos 719162)) (pos 2932896) day }
    ensures { epoch_day result ≡ day }
{
    let epoch = date(1970, 1, 1);
    epoch.checked_add(day.days()).unwrap()
}

/// A date's month, from 1.
pub(crate) fn month_of(day: Date) -> u8
    requires { neg_ℤ (pos 719162) ≤ℤ epoch_day day }
    ensures { result ≡ month_of (epoch_day day) }
{
    day.month() as u8
}

/// A date's day of the month, from 1.
pub(crate) fn month_day_of(day: Date) -> u8
    requires { neg_ℤ (pos 719162) ≤ℤ epoch_day day }
    ensures { result ≡ month_day_of (epoch_day day) }
{
    day.day() as u8
}

/// A date's year.
pub(crate) fn year_of(day: Date) -> u16
    requires { neg_ℤ (pos 719162) ≤ℤ epoch_day day }
    ensures { result ≡ year_of (epoch_day day) }
{
    day.year() as u16
}
