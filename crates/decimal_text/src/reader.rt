ghost use Rattle.std.specs.Prelude.{◌≤◌, length, IfSome, IfNone};
ghost use Rattle.decimal_text.specs.Decimal.{Decimal, Spells};
ghost use Rattle.decimal_text.specs.inside.Parts.{decimal_of};
ghost use Rattle.decimal_text.specs.inside.Splits.{SplitsFraction};

use crate::digits::split_digits;
use crate::exponent::power_of;
use crate::parts::Parts;

/// The digits after a point at the start of a text, and what follows them.
fn split_fraction(text: &[u8]) -> (&[u8], &[u8])
    ensures { SplitsFraction text.now result.0.now result.1.now }
{
    match text {
        [b'.', rest @ ..] => split_digits(rest),
        _ => (&[], text),
    }
}

/// The one decimal that the text spells.
pub fn parts_of(text: &[u8]) -> Option<Parts<'_>>
    ensures found { IfSome result (λ parts. Spells text.now (decimal_of parts)) }
    ensures lengths { IfSome result (λ parts. length parts.whole.now ≤ length text.now) }
    ensures none { IfNone result ((decimal : Decimal) → Spells text.now decimal → ⊥) }
{
    let (whole, rest) = split_digits(text);
    let (fraction, rest) = split_fraction(rest);
    if whole.is_empty() && fraction.is_empty() {
        return None;
    }
    let Some(power) = power_of(rest) else {
        return None;
    };
    Some(Parts {
        whole,
        fraction,
        raised: power.raised,
        lowered: power.lowered,
    })
}
