ghost use Rattle.std.specs.Prelude.{◌≡◌, ℕ, ◌+◌, ◌<◌, ◌≤◌, ◌↔◌, length, IfOk};
ghost use Rattle.std.specs.Str.Parse.{AllDigits};
ghost use Rattle.decimal_text.specs.Decimal.{Decimal, Spells};
ghost use Rattle.decimal_text.specs.inside.Parts.{decimal_of};
ghost use Rattle.decimal_text.specs.Rate.{Answers, IsAboveOne, IsTooFine, IsRate};

use crate::fault::RateFault;
use crate::parts::Parts;
use crate::reader::parts_of;
use crate::units::Units;

/// The longest text that is read, in bytes.
pub const LONGEST_TEXT: usize = 4_194_304;

/// The rate that a decimal number writes, in units of 10^-9.
pub fn read_rate(text: &[u8]) -> Result<u32, RateFault>
    requires { length text.now ≤ LONGEST_TEXT }
    ensures found { IfOk result (IsRate text.now) }
    ensures only { (rate : ℕ) → IsRate text.now rate → result ≡ Ok rate }
    ensures no_number { (result ≡ Err RateFault.NoNumber) ↔ ((decimal : Decimal) → Spells text.now decimal → ⊥) }
    ensures above_one { (result ≡ Err RateFault.AboveOne) ↔ ((decimal : Decimal) × Spells text.now decimal × IsAboveOne decimal) }
    ensures too_fine { (result ≡ Err RateFault.TooFine) ↔ ((decimal : Decimal) × Spells text.now decimal × IsTooFine decimal) }
{
    let Some(parts) = parts_of(text) else {
        return Err(RateFault::NoNumber);
    };
    rate_of(&parts)
}

const ONE: u64 = 1_000_000_000;

/// The rate is computed from the places of the digits, so that no intermediate number is too large for its type.
fn rate_of(parts: &Parts) -> Result<u32, RateFault>
    requires whole { AllDigits 10 parts.now.whole.now }
    requires fraction { AllDigits 10 parts.now.fraction.now }
    requires some_digit { 0 < length parts.now.whole.now + length parts.now.fraction.now }
    requires short { length parts.now.whole.now ≤ LONGEST_TEXT }
    ensures { Answers (decimal_of parts.now) result }
{
    let places = (parts.whole.len() + 9 + parts.raised).saturating_sub(parts.lowered);
    let mut units = Units {
        count: 0,
        places,
        is_exact: true,
    };
    units.push_all(parts.whole);
    units.push_all(parts.fraction);
    let total = units.total();
    if total > ONE {
        return Err(RateFault::AboveOne);
    }
    if units.is_exact {
        return Ok(total as u32);
    }
    if total == ONE {
        return Err(RateFault::AboveOne);
    }
    Err(RateFault::TooFine)
}
