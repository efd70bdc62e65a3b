ghost use Rattle.std.specs.Prelude.{◌≡◌, ℕ, ◌<◌, ◌≤◌, IfSome, IfNone, length};
ghost use Rattle.std.specs.Str.Parse.{IsNumeral, digits_value};
ghost use Rattle.decimal_text.specs.Decimal.{IsExponent, IsSigned};

use crate::digits::{short_number, split_digits};

/// A power of ten that raises or lowers a number. It is below 1,000.
#[derive(Clone, Copy)]
pub struct Power {
    pub raised: usize,
    pub lowered: usize,
    ghost raised_below: { raised < 1000 },
    ghost lowered_below: { lowered < 1000 },
}

fn few_digits(text: &[u8]) -> Option<usize>
    ensures found { IfSome result (λ n. IsNumeral 10 text.now × (length text.now ≤ 3) × (n ≡ digits_value 10 text.now) × (n < 1000)) }
    ensures none { IfNone result ((IsNumeral 10 text.now × (length text.now ≤ 3)) → ⊥) }
{
    let (digits, rest) = split_digits(text);
    if digits.is_empty() || digits.len() > 3 || !rest.is_empty() {
        return None;
    }
    Some(short_number(digits))
}

fn signed_power(text: &[u8]) -> Option<Power>
    ensures found { IfSome result (λ power. IsSigned text.now power.raised power.lowered) }
    ensures none { IfNone result ((raised lowered : ℕ) → IsSigned text.now raised lowered → ⊥) }
{
    match text {
        [b'-', digits @ ..] => Some(Power {
            raised: 0,
            lowered: few_digits(digits)?,
        }),
        [b'+', digits @ ..] => Some(Power {
            raised: few_digits(digits)?,
            lowered: 0,
        }),
        digits => Some(Power {
            raised: few_digits(digits)?,
            lowered: 0,
        }),
    }
}

/// The power of ten at the end of a decimal; `None` if the text is neither empty nor such a power.
pub fn power_of(text: &[u8]) -> Option<Power>
    ensures found { IfSome result (λ power. IsExponent text.now power.raised power.lowered) }
    ensures none { IfNone result ((raised lowered : ℕ) → IsExponent text.now raised lowered → ⊥) }
{
    match text {
        [] => Some(Power {
            raised: 0,
            lowered: 0,
        }),
        [b'E' | b'e', signed @ ..] => signed_power(signed),
        _ => None,
    }
}
