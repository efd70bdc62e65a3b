ghost use Rattle.std.specs.Prelude.{◌≤◌};
ghost use Rattle.present_value.specs.Sums.{Cover};
ghost use Rattle.present_value.specs.Values.{AreColumns};
ghost use Rattle.present_value.specs.Ends.{AreValuesAt};

/// How many units of 10^-16 make 1.
pub const UNITS_IN_ONE: u64 = 10_000_000_000_000_000;

/// A lower and an upper bound of one value, in units of 10^-16.
#[derive(Clone, Copy, PartialEq, Eq, Debug)]
pub struct Pair {
    pub lo: u64,
    pub hi: u64,
}

/// The present values at one policy year, per unit of amount, in units of 10^-16.
#[derive(Clone, Copy, PartialEq, Eq, Debug)]
pub struct Values {
    /// The benefits from this year on.
    pub ben: Pair,
    /// The value of 1 at the start of each year, from this one on, in which a premium is due.
    pub ann: Pair,
}

/// The present values at each policy year, per unit of amount, in units of 10^-16.
///
/// Place `t` is the value at the start of year `t`, from 0 at issue to `n` at the end of cover. A place
/// above `n` holds zeros and has no meaning.
#[derive(Clone, Copy)]
pub struct Columns {
    /// The years of cover.
    pub n: u8,
    /// The years in which a premium is due.
    pub h: u8,
    /// The benefits from year `t` on.
    pub ben: [Pair; 132],
    /// The value of 1 at the start of each year, from `t` on, in which a premium is due.
    pub ann: [Pair; 132],
}

impl Columns {
    /// The values at year `t`.
    pub fn at(&self, t: u8) -> Values
        requires { t ≤ 131 }
        ensures { (c : Cover) → AreColumns c self.now → t ≤ c.n → AreValuesAt c t result }
    {
        Values {
            ben: self.ben[t as usize],
            ann: self.ann[t as usize],
        }
    }
}
