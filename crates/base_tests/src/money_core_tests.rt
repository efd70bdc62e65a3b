use money_core::*;
use test_rows::assert_rows;

const AMOUNTS: &[(i64, &str)] = &[
    (i64::MIN, "-92233720368547758.08"),
    (-40_000, "-400.00"),
    (-5, "-0.05"),
    (0, "0.00"),
    (1, "0.01"),
    (99, "0.99"),
    (12_722, "127.22"),
    (10_000_000_000, "100000000.00"),
    (i64::MAX, "92233720368547758.07"),
];

// Whether the cents are printed so, and, if they are positive, read back.
fn is_printed(cents: i64, text: &str) -> bool {
    let mut buf = [b'#'; 24];
    let length = print_cents(cents, &mut buf);
    let read = parse_cents(text.as_bytes(), u64::MAX);
    let is_read = match u64::try_from(cents) {
        Ok(positive) if positive > 0 => read == Some(positive),
        _ => read.is_none(),
    };
    is_read && &buf[..length] == text.as_bytes()
}

#[test]
fn amounts_are_read_and_printed_back(rt: HostRuntime) {
    assert_rows!(rt; (cents, text) in AMOUNTS => is_printed(*cents, text); "at {cents}");
}

const MOST: u64 = 10_000_000_000;

const OTHER_FORMS: &[&str] = &[
    "",
    ".",
    "0.00",
    "00.05",
    "01.00",
    ".05",
    "0.5",
    "0.050",
    "1",
    "1.",
    "1.0a",
    "1,00",
    "+1.00",
    "-1.00",
    " 1.00",
    "1.00 ",
    "1.-1",
    "1e0.00",
    "100000000.01",
    "184467440737095516.16",
    "99999999999999999999999.00",
];

#[test]
fn other_forms_are_refused(rt: HostRuntime) {
    assert_rows!(rt; text in OTHER_FORMS => parse_cents(text.as_bytes(), MOST).is_none(); "at {text}");
    assert!(rt; parse_cents(b"100000000.00", MOST) == Some(MOST));
    assert!(rt; parse_cents(b"184467440737095516.15", u64::MAX) == Some(u64::MAX));
}

const NUMBERS: &[(&str, Option<u64>)] = &[
    ("0", Some(0)),
    ("7", Some(7)),
    ("4000000", Some(4_000_000)),
    ("4000001", None),
    ("", None),
    ("00", None),
    ("07", None),
    ("+7", None),
    ("-0", None),
    ("7 ", None),
    ("1x", None),
    ("18446744073709551616", None),
];

#[test]
fn whole_numbers_are_read(rt: HostRuntime) {
    assert_rows!(rt; (text, number) in NUMBERS =>
        parse_number(text.as_bytes(), 4_000_000), *number; "at {text}");
    assert!(rt; parse_number(b"18446744073709551615", u64::MAX) == Some(u64::MAX));
}
