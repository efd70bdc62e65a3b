//! Worked rates, each a theorem over the definitions alone.

ghost use Rattle.decimal_text.specs.Worked.{NoRates, PlainRates, ScaledRates};

/// Texts of rates, and two texts that are no rates.
pub fn rates_by_hand()
    ensures plain { PlainRates }
    ensures scaled { ScaledRates }
    ensures none { NoRates }
{}
