// An amount of cents as text, such as `127.22`: read, and written.
ghost use Rattle.std.specs.Prelude.{◌≡◌, ◌+◌, ◌/◌, ◌%◌, [], ◌∷◌, ◌≢◌, ℕ, ◌<◌, ◌≤◌, ◌↔◌, IsTrue, IfSome, IfNone, take, drop};
ghost use Rattle.money_core.specs.CentsText.{cents_text, signed_cents_text};

use crate::number::parse_number;
use itoa::write_digits;

/// Reads an amount from 0.01 to `most` cents, such as `0.05` or `127.22`: no sign, no leading zeros except a single
/// `0` before the point, and two digits after it. The result and `most` are in cents.
pub fn parse_cents(text: &[u8], most: u64) -> Option<u64>
    ensures cents { IfSome result (λ c. (1 ≤ c) × (c ≤ most) × (text.now ≡ cents_text c)) }
    ensures none { IfNone result ((c : ℕ) → 1 ≤ c → c ≤ most → text.now ≢ cents_text c) }
{
    let (whole, fraction) = text.split_last_chunk::<3>()?;
    let units = parse_number(whole, most / 100)?;
    let hundredths = parse_hundredths(fraction)?;
    let cents = (units * 100).checked_add(hundredths)?;
    if is_amount(cents, most) {
        Some(cents)
    } else {
        None
    }
}

fn is_amount(cents: u64, most: u64) -> bool
    ensures { IsTrue result ↔ ((1 ≤ cents) × (cents ≤ most)) }
{
    (1..=most).contains(&cents)
}

// Reads a point and two digits, from `.00` to `.99`.
fn parse_hundredths(text: &[u8; 3]) -> Option<u64>
    ensures hundredths { IfSome result (λ n. (n < 100) × (text.now ≡ 46 ∷ (48 + n / 10) ∷ (48 + n % 10) ∷ [])) }
    ensures none { IfNone result ((n : ℕ) → n < 100 → text.now ≢ 46 ∷ (48 + n / 10) ∷ (48 + n % 10) ∷ []) }
{
    let [point, tens, ones] = *text;
    if point != b'.' || !tens.is_ascii_digit() || !ones.is_ascii_digit() {
        return None;
    }
    Some(u64::from(tens - b'0') * 10 + u64::from(ones - b'0'))
}

/// Writes an amount of cents into the first bytes of `buf`, such as `0.00`, `127.22` or `-400.00`, and returns how
/// many bytes it takes. The bytes after them stay.
pub fn print_cents(cents: i64, buf: &mut [u8; 24]) -> usize
    ensures within { result ≤ 24 }
    ensures text { take result buf.new ≡ signed_cents_text cents }
    ensures rest { drop result buf.new ≡ drop result buf.old }
{
    let mut text = [0; 24];
    let start = write_at_end(cents, &mut text);
    let length = text.len() - start;
    buf[..length].copy_from_slice(&text[start..]);
    length
}

// Writes the amount so that it ends where `text` does, and returns where it starts.
fn write_at_end(cents: i64, text: &mut [u8; 24]) -> usize
    ensures within { result ≤ 24 }
    ensures written { drop result text.new ≡ signed_cents_text cents }
{
    let magnitude = cents.unsigned_abs();
    write_hundredths(magnitude % 100, text);
    let start = write_digits(magnitude / 100, text, 21);
    if cents >= 0 {
        return start;
    }
    text[start - 1] = b'-';
    start - 1
}

// Writes a point and two digits as the last three bytes.
fn write_hundredths(n: u64, text: &mut [u8; 24])
    requires { n < 100 }
    ensures { drop 21 text.new ≡ 46 ∷ (48 + n / 10) ∷ (48 + n % 10) ∷ [] }
{
    let (tens, ones) = ((n / 10) as u8, (n % 10) as u8);
    text[21..].copy_from_slice(&[b'.', b'0' + tens, b'0' + ones]);
}
