// Days and years by `jiff_core`, whose dates `jiff` itself uses: an opening calls them for each record, and a
// valuation for each policy.
ghost use Rattle.std.specs.Prelude.{◌≡◌, pos};
ghost use Rattle.life_dates.specs.Calendar.{IsTermDay, date_of};

use jiff_core::civil::Date;

// The date of a day.
pub fn plain_date(day: i32) -> Date
    requires { IsTermDay day }
    ensures year { result.year ≡ pos (date_of day).year }
    ensures month { result.month ≡ (date_of day).month }
    ensures day { result.day ≡ (date_of day).day }
{
    Date::from_unix_epoch_day(day as i64).unwrap()
}

// The year of a day.
pub fn plain_year(day: i32) -> u16
    requires { IsTermDay day }
    ensures { result ≡ (date_of day).year }
{
    plain_date(day).year as u16
}
