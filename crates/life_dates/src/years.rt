// Whole years after a day.
ghost use Rattle.std.specs.Prelude.{◌≡◌, ◌-◌, ◌≤◌, min, ◌≤ℤ◌};
ghost use Rattle.life_dates.specs.Calendar.{IsDay, IsTermDay, date_of};
ghost use Rattle.life_dates.specs.Anniversary.{anniversary_of, IsCompleted};

use crate::plain::{plain_date, plain_year};
use jiff_core::civil::Date;

const LAST_TERM_DAY: i32 = 157_053;

/// The day, in days since 1970-01-01, of anniversary `t` of a policy that was issued on a day: the date with its year
/// raised by `t`; in a common year 29 February becomes the 28th.
pub fn anniversary(issued: i32, t: u8) -> i32
    requires in_range { IsDay issued }
    requires within { t ≤ 134 }
    ensures value { result ≡ anniversary_of issued t }
    ensures range { IsTermDay result }
{
    let date = plain_date(issued);
    Date::constrain(date.year + t as i16, date.month, date.day).to_unix_epoch_day()
}

/// How many whole years, at most 131, have passed from the issue day to a day: the greatest number whose anniversary
/// isn't after the day.
pub fn completed(issued: i32, on: i32) -> u8
    requires in_range { IsDay issued }
    requires not_before { issued ≤ℤ on }
    ensures { IsCompleted issued on result }
{
    let years = years_between(issued, on.min(LAST_TERM_DAY));
    if anniversary(issued, years) > on {
        return years - 1;
    }
    years
}

// From the year of the issue day to the year of a later day, and at most 131.
fn years_between(issued: i32, on: i32) -> u8
    requires in_range { IsDay issued }
    requires is_term_day { IsTermDay on }
    requires not_before { issued ≤ℤ on }
    ensures { result ≡ min ((date_of on).year - (date_of issued).year) 131 }
{
    let last = plain_year(on);
    let first = plain_year(issued);
    (last - first).min(131) as u8
}
