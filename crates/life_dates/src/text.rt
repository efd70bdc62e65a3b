// The text of a day: YYYY-MM-DD.
ghost use Rattle.std.specs.Prelude.{◌≡◌, ◌+◌, ◌-◌, ◌*◌, ◌/◌, ◌%◌, [], ◌∷◌, ◌<◌, ◌≤◌, ℤ, Some, IfSome};
ghost use Rattle.std.specs.Int.{IsInRange};
ghost use Rattle.std.specs.Option.{SomeIff};
ghost use Rattle.life_dates.specs.Calendar.{IsDate, IsDay, IsTermDay, day_number, ymd};
ghost use Rattle.life_dates.specs.DayText.{day_text, IsDayText};

use crate::calendar::{number_of, year_month_day};
use jiff::civil::Date;
use policy_types::{FIRST_DAY, LAST_DAY};

/// The day from 1900-01-01 to 2199-12-31 whose text these bytes are; `None` exactly if they aren't the text of such a
/// day.
pub fn parse_day(text: &[u8]) -> Option<i32>
    ensures some { IfSome result (λ day. IsDay day × IsDayText text.now day) }
    ensures exact { (day : ℤ) → IsDay day → IsDayText text.now day → result ≡ Some day }
{
    let &[a, b, c, d, first, e, f, second, g, h] = text else {
        return None;
    };
    if first != b'-' || second != b'-' {
        return None;
    }
    let century = two_digits_value(a, b)?;
    let year = two_digits_value(c, d)?;
    let month = two_digits_value(e, f)?;
    let day = two_digits_value(g, h)?;
    day_of(century as u16 * 100 + year as u16, month, day)
}

/// The text of a day from 1900-01-01 to 2399-12-31.
pub fn print_day(day: i32) -> [u8; 10]
    requires { IsTermDay day }
    ensures { result ≡ day_text day }
{
    let (year, month, day) = year_month_day(day);
    let [a, b] = two_digits_of((year / 100) as u8);
    let [c, d] = two_digits_of((year % 100) as u8);
    let [e, f] = two_digits_of(month);
    let [g, h] = two_digits_of(day);
    [a, b, c, d, b'-', e, f, b'-', g, h]
}

// The day of a date, if the date is in the calendar and its day in the range.
fn day_of(year: u16, month: u8, day: u8) -> Option<i32>
    requires { (year ≤ 9999) × (month < 100) × (day < 100) }
    ensures { let date = ymd year month day in
        SomeIff result (IsDate date × IsDay (day_number date)) (day_number date) }
{
    let Ok(date) = Date::new(year as i16, month as i8, day as i8) else {
        return None;
    };
    let number = number_of(date);
    if number < FIRST_DAY || number > LAST_DAY {
        return None;
    }
    Some(number)
}

fn two_digits_value(tens: u8, ones: u8) -> Option<u8>
    ensures { SomeIff result (IsInRange 48 57 tens × IsInRange 48 57 ones)
        (10 * (tens - 48) + (ones - 48)) }
{
    if !tens.is_ascii_digit() || !ones.is_ascii_digit() {
        return None;
    }
    Some((tens - b'0') * 10 + (ones - b'0'))
}

fn two_digits_of(n: u8) -> [u8; 2]
    requires { n < 100 }
    ensures { result ≡ (48 + n / 10) ∷ (48 + n % 10) ∷ [] }
{
    [b'0' + n / 10, b'0' + n % 10]
}
