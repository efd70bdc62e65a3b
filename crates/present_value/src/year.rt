ghost use Rattle.std.specs.Prelude.{◌≡◌, ◌+◌, ◌*◌, ◌≤◌};
ghost use Rattle.rate_table.specs.Rates.{ONE};
ghost use Rattle.present_value.specs.Rounding.{UNIT, down, up};
ghost use Rattle.present_value.specs.inside.Earlier.{benefit_dividend, annuity_dividend};

use crate::pair::{Pair, UNITS_IN_ONE};
use crate::reciprocal::Reciprocal;

/// 10^5 times what 10,000 grows to in a year.
pub fn year_reciprocal(bp: u16) -> Reciprocal
    requires { bp ≤ 2000 }
    ensures { result.divisor ≡ 100000 * (10000 + bp) }
{
    Reciprocal::of(100_000 * (10_000 + bp as u64))
}

/// The benefits one year earlier: what a death in that year pays, and the value for a survivor.
///
/// The rate is in units of 10^-9, and `year` is 10^5 times what 10,000 grows to in a year.
pub fn benefits_before(rate: u32, year: &Reciprocal, later: Pair) -> Pair
    requires rate { rate ≤ ONE }
    requires lo { later.lo ≤ UNIT }
    requires hi { later.hi ≤ UNIT }
    ensures lo { result.lo ≡ down (benefit_dividend rate later.lo) (10000 * year.now.divisor) }
    ensures hi { result.hi ≡ up (benefit_dividend rate later.hi) (10000 * year.now.divisor) }
{
    let death = rate as u128 * UNITS_IN_ONE as u128;
    let survival = 1_000_000_000 - rate as u128;
    Pair {
        lo: year.down(death + survival * later.lo as u128),
        hi: year.up(death + survival * later.hi as u128),
    }
}

/// The premiums one year earlier, of 1 each: one that is paid at once, and the value for a survivor.
pub fn premiums_before(rate: u32, year: &Reciprocal, later: Pair) -> Pair
    requires rate { rate ≤ ONE }
    requires lo { later.lo ≤ UNIT * 131 }
    requires hi { later.hi ≤ UNIT * 131 }
    ensures lo { result.lo ≡ UNIT + down (annuity_dividend rate later.lo) (10000 * year.now.divisor) }
    ensures hi { result.hi ≡ UNIT + up (annuity_dividend rate later.hi) (10000 * year.now.divisor) }
{
    let survival = 1_000_000_000 - rate as u128;
    Pair {
        lo: UNITS_IN_ONE + year.down(survival * later.lo as u128),
        hi: UNITS_IN_ONE + year.up(survival * later.hi as u128),
    }
}
