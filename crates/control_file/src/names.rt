//! The names that the text of a control file uses for numbers.

ghost use Rattle.std.specs.Prelude.{◌≡◌, ◌<◌, ◌≤◌, get_or, []};
ghost use Rattle.control_file.specs.Names.{month_names, state_names, wal_level_names, weekday_names};
ghost use Rattle.control_file.specs.Text.{on_off, passing, yes_no};

/// The name of a day of the week, from 0 for Monday.
pub fn weekday_name(weekday: usize) -> &'static str
    requires { weekday < 7 }
    ensures { result.now ≡ get_or weekday_names weekday [] }
{
    match weekday {
        0 => "Mon",
        1 => "Tue",
        2 => "Wed",
        3 => "Thu",
        4 => "Fri",
        5 => "Sat",
        _ => "Sun",
    }
}

/// The name of a month, from 0 for January.
pub fn month_name(month: usize) -> &'static str
    requires { month < 12 }
    ensures { result.now ≡ get_or month_names month [] }
{
    match month {
        0 => "Jan",
        1 => "Feb",
        2 => "Mar",
        3 => "Apr",
        4 => "May",
        5 => "Jun",
        6 => "Jul",
        7 => "Aug",
        8 => "Sep",
        9 => "Oct",
        10 => "Nov",
        _ => "Dec",
    }
}

/// The name of a cluster's state.
pub fn state_name(state: u32) -> &'static str
    requires { state ≤ 6 }
    ensures { result.now ≡ get_or state_names state [] }
{
    match state {
        0 => "starting up",
        1 => "shut down",
        2 => "shut down in recovery",
        3 => "shutting down",
        4 => "in crash recovery",
        5 => "in archive recovery",
        _ => "in production",
    }
}

/// The name of a level of the log.
pub fn wal_level_name(level: u32) -> &'static str
    requires { level ≤ 2 }
    ensures { result.now ≡ get_or wal_level_names level [] }
{
    match level {
        0 => "minimal",
        1 => "replica",
        _ => "logical",
    }
}

/// The word for a setting that is 0 or 1.
pub fn on_off(setting: u8) -> &'static str
    ensures { result.now ≡ on_off setting }
{
    if setting == 0 { "off" } else { "on" }
}

/// The answer to a question that is 0 or 1.
pub fn yes_no(answer: u8) -> &'static str
    ensures { result.now ≡ yes_no answer }
{
    if answer == 0 { "no" } else { "yes" }
}

/// How a float of eight bytes is passed.
pub fn passing(by_value: u8) -> &'static str
    ensures { result.now ≡ passing by_value }
{
    if by_value == 0 {
        "by reference"
    } else {
        "by value"
    }
}
