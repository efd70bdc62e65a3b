ghost use Rattle.std.specs.Prelude.{◌≡◌, ◌+◌, ◌*◌, ◌/◌, ◌<◌, ◌^◌};
ghost use Rattle.present_value.specs.Rounding.{down, up};

/// A divisor, together with 2^93 divided by it and rounded down, from which quotients are computed without a
/// division.
#[derive(Clone, Copy)]
pub struct Reciprocal {
    divisor: u64,
    inverse: u64,
    ghost least: { 2 ^ 29 < divisor },
    ghost most: { divisor < 2 ^ 31 },
    ghost inverts: { inverse ≡ 2 ^ 93 / divisor },
}

impl Reciprocal {
    pub fn of(divisor: u64) -> Reciprocal
        requires least { 2 ^ 29 < divisor }
        requires most { divisor < 2 ^ 31 }
        ensures { result.divisor ≡ divisor }
    {
        Reciprocal {
            divisor,
            inverse: ((1u128 << 93) / divisor as u128) as u64,
        }
    }

    /// The quotient of a number, rounded down.
    pub fn down(&self, number: u128) -> u64
        requires { number < 2 ^ 91 }
        ensures { result ≡ down number self.now.divisor }
    {
        self.divide(number).0
    }

    /// The quotient of a number, rounded up.
    pub fn up(&self, number: u128) -> u64
        requires { number < 2 ^ 91 }
        ensures { result ≡ up number self.now.divisor }
    {
        let (quotient, rest) = self.divide(number);
        if rest == 0 { quotient } else { quotient + 1 }
    }

    /// The quotient, rounded down, and the remainder.
    fn divide(&self, number: u128) -> (u64, u64)
        requires { number < 2 ^ 91 }
        ensures whole { number ≡ result.0 * self.now.divisor + result.1 }
        ensures rest { result.1 < self.now.divisor }
    {
        // The leading 64 bits of the number give the quotient, or one less.
        let leading = (number >> 27) as u64;
        let estimate = ((leading as u128 * self.inverse as u128) >> 66) as u64;
        let rest = (number - estimate as u128 * self.divisor as u128) as u64;
        if rest >= self.divisor {
            (estimate + 1, rest - self.divisor)
        } else {
            (estimate, rest)
        }
    }
}
