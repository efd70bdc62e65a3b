// The sums of one kind of payment, by year.
ghost use Rattle.std.specs.Prelude.{◌≡◌, ℕ, ◌≤◌, ◌<◌, ◌+◌, length};
ghost use Rattle.cash_projection.specs.Names.{UNIT, down, up, pair_at, pair_of};
ghost use Rattle.cash_projection.specs.inside.Tallies.{HasRisen, IsRoomy, AreBothSums, sum_at};

use present_value::{Pair, UNITS_IN_ONE, quotient_down, quotient_up};

/// A lower and an upper sum, in 10^-16 of a cent.
#[derive(Clone, Copy)]
pub struct Sums {
    pub lo: u128,
    pub hi: u128,
}

/// The sums of each year from the current one on.
#[derive(Clone, Copy)]
pub struct YearSums {
    pub sums: [Sums; 131],
}

impl YearSums {
    pub fn new() -> YearSums
        ensures places { length result.sums ≡ 131 }
        ensures none { (j : ℕ) → ((sum_at result.sums j).lo ≡ 0) × ((sum_at result.sums j).hi ≡ 0) }
    {
        YearSums {
            sums: [Sums { lo: 0, hi: 0 }; 131],
        }
    }

    /// Adds cents times the pair of each year, in the years from `from` on and before `to`.
    pub fn add(&mut self, pairs: &[Pair], from: usize, to: usize, cents: u64)
        requires order { from ≤ to }
        requires within { (to ≤ 131) × (to ≤ length pairs.now) }
        requires cents { cents ≤ 10000000000 }
        requires pairs { (j : ℕ) → j < to → ((pair_at pairs.now j).lo ≤ UNIT) × ((pair_at pairs.now j).hi ≤ UNIT) }
        requires room { IsRoomy to self.old.sums }
        ensures { HasRisen from to cents pairs.now self.old.sums self.new.sums }
    {
        for j in from..to {
            let pair = pairs[j];
            let sums = self.sums[j];
            self.sums[j] = Sums {
                lo: sums.lo + cents as u128 * pair.lo as u128,
                hi: sums.hi + cents as u128 * pair.hi as u128,
            };
        }
    }

    /// Adds the sums of another column, for `years` years.
    pub fn join(&mut self, other: &YearSums, years: usize)
        requires years { years ≤ 131 }
        requires room { IsRoomy years self.old.sums }
        requires other { IsRoomy years other.now.sums }
        ensures { AreBothSums years self.old.sums other.now.sums self.new.sums }
    {
        for j in 0..years {
            let ours = self.sums[j];
            let theirs = other.sums[j];
            self.sums[j] = Sums {
                lo: ours.lo + theirs.lo,
                hi: ours.hi + theirs.hi,
            };
        }
    }

    /// The bounds of a year, in cents.
    pub fn pair(&self, year: usize) -> Pair
        requires year { year ≤ 130 }
        requires room { IsRoomy (year + 1) self.now.sums }
        ensures { result ≡ pair_of (down (sum_at self.now.sums year).lo UNIT) (up (sum_at self.now.sums year).hi UNIT) }
    {
        let sums = self.sums[year];
        Pair {
            lo: quotient_down(sums.lo, UNITS_IN_ONE as u128),
            hi: quotient_up(sums.hi, UNITS_IN_ONE as u128),
        }
    }
}
