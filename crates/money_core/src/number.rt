ghost use Rattle.std.specs.Prelude.{◌≡◌, ◌≢◌, ℕ, ◌^◌, ◌<◌, ◌≤◌, ◌↔◌, length, slice_index, decimal, IsTrue, IfSome, IfNone};
ghost use Rattle.std.specs.Str.Parse.{AllDigits, digits_value};

/// Reads a whole number of at most `most`: decimal digits without a sign and without leading zeros. The digit `0`
/// alone is a number.
pub fn parse_number(text: &[u8], most: u64) -> Option<u64>
    ensures number { IfSome result (λ n. (n ≤ most) × (text.now ≡ decimal n)) }
    ensures none { IfNone result ((n : ℕ) → n ≤ most → text.now ≢ decimal n) }
{
    if !begins_as_number(text) {
        return None;
    }
    let number = value_of_digits(text)?;
    if number <= most { Some(number) } else { None }
}

// There is a first byte, and a leading `0` is the only digit.
fn begins_as_number(text: &[u8]) -> bool
    ensures { IsTrue result ↔ ((0 < length text.now) × (slice_index text.now 0 ≡ 48 → length text.now ≡ 1)) }
{
    match text {
        [] => false,
        [_] => true,
        [first, ..] => *first != b'0',
    }
}

// The number that the digits write. Leading zeros are accepted, and no digits at all mean 0.
fn value_of_digits(text: &[u8]) -> Option<u64>
    ensures value { IfSome result (λ n. AllDigits 10 text.now × (n ≡ digits_value 10 text.now)) }
    ensures none { IfNone result (AllDigits 10 text.now → 2 ^ 64 ≤ digits_value 10 text.now) }
{
    let mut value: u64 = 0;
    for byte in text {
        if !byte.is_ascii_digit() {
            return None;
        }
        let digit = u64::from(*byte - b'0');
        value = value.checked_mul(10)?.checked_add(digit)?;
    }
    Some(value)
}
