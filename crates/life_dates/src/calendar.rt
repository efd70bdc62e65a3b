// Days and dates by `jiff`, related to the calendar of this crate's definitions.
ghost use Rattle.std.specs.Prelude.{◌≡◌, ◌<◌, ◌≤◌, pos};
ghost use Rattle.jiff_core.specs.Date.{epoch_day};
ghost use Rattle.life_dates.specs.Calendar.{IsTermDay, date_of, ymd};

use jiff::ToSpan;
use jiff::civil::{Date, date};

// The date of a day.
pub fn civil_date(day: i32) -> Date
    requires { IsTermDay day }
    ensures year { result.year ≡ pos (date_of day).year }
    ensures month { result.month ≡ (date_of day).month }
    ensures day { result.day ≡ (date_of day).day }
{
    date(1970, 1, 1).checked_add((day as i64).days()).unwrap()
}

// The day of a date.
pub fn number_of(date: Date) -> i32
    ensures { result ≡ epoch_day date }
{
    date.to_plain().to_unix_epoch_day()
}

// The year, month and day of a day's date.
pub fn year_month_day(day: i32) -> (u16, u8, u8)
    requires { IsTermDay day }
    ensures value { ymd result.0 result.1 result.2 ≡ date_of day }
    ensures bound { (result.0 < 2400) × (result.1 ≤ 12) × (result.2 ≤ 31) }
{
    let date = civil_date(day);
    (date.year() as u16, date.month() as u8, date.day() as u8)
}
