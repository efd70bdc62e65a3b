use life_dates::{anniversary, completed, parse_day, print_day};
use test_rows::assert_rows;

type Day = (&'static [u8], i32);

// Days, with the texts that Python's calendar gives them.
const DAYS: &[Day] = &[
    (b"1900-01-01", -25_567),
    (b"1900-02-28", -25_509),
    (b"1900-03-01", -25_508),
    (b"1969-12-31", -1),
    (b"1970-01-01", 0),
    (b"2000-02-28", 11_015),
    (b"2000-02-29", 11_016),
    (b"2000-03-01", 11_017),
    (b"2024-02-29", 19_782),
    (b"2100-02-28", 47_540),
    (b"2100-03-01", 47_541),
    (b"2196-02-29", 82_604),
    (b"2196-03-01", 82_605),
    (b"2199-12-31", 84_005),
];

// Days that are printed, but aren't read.
const LATER_DAYS: &[Day] = &[
    (b"2200-01-01", 84_006),
    (b"2204-02-29", 85_525),
    (b"2300-03-01", 120_589),
    (b"2333-12-31", 132_947),
    (b"2399-12-31", 157_053),
];

fn is_printed(day: i32, text: &[u8]) -> bool {
    -25_567 <= day && day <= 157_053 && print_day(day).as_slice() == text
}

#[test]
fn days_read_and_print(rt: HostRuntime) {
    assert_rows!(rt; (text, day) in DAYS =>
        parse_day(text) == Some(*day) && is_printed(*day, text); "on day {day}");
    assert_rows!(rt; (text, day) in LATER_DAYS =>
        parse_day(text).is_none() && is_printed(*day, text); "on day {day}");
}

#[test]
fn every_day_is_read_as_it_is_printed(rt: HostRuntime) {
    let mut count = 0u32;
    for n in 0..109_573u32 {
        let day = n as i32 - 25_567;
        assert!(rt; parse_day(&print_day(day)) == Some(day), "on day {day}");
        count = n;
    }
    assert!(rt; count == 109_572);
}

const NO_DAYS: &[&[u8]] = &[
    b"1899-12-31",
    b"2200-01-01",
    b"1900-02-29",
    b"2100-02-29",
    b"2019-02-29",
    b"2020-13-01",
    b"2020-00-10",
    b"2020-04-31",
    b"2020-01-00",
    b"0000-01-01",
    b"9999-12-31",
    b"2020-1-001",
    b"2020/01/01",
    b"2020-01/01",
    b"+020-01-01",
    b"-020-01-01",
    b"2020-01- 1",
    b"20200-1-01",
    b"2020-0a-01",
    b":020-01-01",
    b"/020-01-01",
    b"",
    b"2020-01-1",
    b"2020-01-011",
    b" 2020-01-01",
];

#[test]
fn other_texts_are_no_days(rt: HostRuntime) {
    assert_rows!(rt; text in NO_DAYS => parse_day(text).is_none(); "{text:?}");
}

// The day of an issue, a number of years, and the anniversary by Python's calendar.
const ANNIVERSARIES: &[(i32, u8, i32)] = &[
    (19_782, 0, 19_782),
    (19_782, 1, 20_147),
    (19_782, 4, 21_243),
    (19_782, 76, 47_540),
    (19_782, 134, 68_724),
    (-25_567, 0, -25_567),
    (-25_567, 131, 22_280),
    (-25_203, 100, 11_322),
    (46_080, 4, 47_540),
    (82_604, 8, 85_525),
    (84_005, 134, 132_947),
    (18_262, 1, 18_628),
];

// The day of an issue, another day, and the whole years between them.
const COMPLETED: &[(i32, i32, u8)] = &[
    (18_262, 18_262, 0),
    (18_262, 18_627, 0),
    (18_262, 18_628, 1),
    (19_782, 20_146, 0),
    (19_782, 20_147, 1),
    (19_782, 21_242, 3),
    (19_782, 21_243, 4),
    (-25_567, 22_279, 130),
    (-25_567, 22_280, 131),
    (-25_567, 84_005, 131),
    (84_005, 157_053, 131),
    (18_261, 18_626, 0),
    (-25_567, 2_147_483_647, 131),
];

fn passes(issued: i32, t: u8, day: i32) -> bool {
    let may_be_asked = -25_567 <= issued && issued <= 84_005 && t <= 134;
    may_be_asked && anniversary(issued, t) == day
}

fn are_completed(issued: i32, on: i32, years: u8) -> bool {
    let may_be_asked = -25_567 <= issued && issued <= 84_005 && issued <= on;
    may_be_asked && completed(issued, on) == years
}

#[test]
fn years_pass(rt: HostRuntime) {
    assert_rows!(rt; (issued, t, day) in ANNIVERSARIES =>
        passes(*issued, *t, *day); "{issued} and {t} years");
    assert_rows!(rt; (issued, on, years) in COMPLETED =>
        are_completed(*issued, *on, *years); "{issued} to {on}");
}
