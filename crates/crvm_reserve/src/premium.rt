ghost use Rattle.std.specs.Prelude.{◌≡◌, ◌+◌, ◌*◌, ◌-◌, ◌<◌, ◌≤◌, min};
ghost use Rattle.crvm_reserve.specs.Names.{ONE, Between, UNIT, down, up, Cover, beta};
ghost use Rattle.crvm_reserve.specs.Rounded.{excess_bound};
ghost use Rattle.crvm_reserve.specs.Made.{ArePremiumParts, ArePremiumPartsOf, premium_of};

use present_value::{Pair, UNITS_IN_ONE, Values, quotient_down, quotient_up};

/// A lower and an upper bound of the modified net premium, per unit of amount, in units of 10^-16.
#[derive(Clone, Copy, PartialEq, Eq, Debug)]
pub struct Premium {
    pub lo: u64,
    pub hi: u64,
    /// A lower bound of the excess from which it is computed, and by which the first year's net premium is lower.
    pub excess_lo: u64,
    /// An upper bound of the excess.
    pub excess_hi: u64,
}

/// What the modified net premium of a cover is computed from.
#[derive(Clone, Copy, PartialEq, Eq, Debug)]
pub struct PremiumParts {
    /// The rate of death in the first year, in units of 10^-9.
    pub rate: u32,
    /// Interest in basis points.
    pub bp: u16,
    /// The values at issue.
    pub issue: Values,
    /// The values a year later.
    pub renewal: Values,
    /// The values at issue of the cap, the cover whose level premium limits that of the renewal years.
    pub limit: Values,
}

/// The modified net premium of a cover, from its values and those of its cap, which may be by another table.
pub fn premium_by(parts: PremiumParts) -> Premium
    requires { ArePremiumParts parts }
    ensures rounded { (c cap : Cover) → ArePremiumPartsOf c cap parts → result ≡ premium_of c cap }
    ensures exact { (c cap : Cover) → ArePremiumPartsOf c cap parts → Between result.lo result.hi UNIT (beta c cap) }
    ensures narrow { result.hi ≤ result.lo + 100000 }
{
    let excess = excess_premium(parts);
    let benefits = parts.issue.ben;
    let charged = Pair {
        lo: benefits.lo + excess.lo,
        hi: benefits.hi + excess.hi,
    };
    let level = level_premium(charged, parts.issue.ann);
    Premium {
        lo: level.lo,
        hi: level.hi,
        excess_lo: excess.lo,
        excess_hi: excess.hi,
    }
}

/// The level premium after the first year, at most that of the cap, less the first year's term premium.
fn excess_premium(parts: PremiumParts) -> Pair
    requires { ArePremiumParts parts }
    ensures lo { (c cap : Cover) → ArePremiumPartsOf c cap parts → result.lo ≡ excess_bound down up c cap }
    ensures hi { (c cap : Cover) → ArePremiumPartsOf c cap parts → result.hi ≡ excess_bound up down c cap }
{
    let first = first_year_premium(parts.rate, parts.bp);
    let cap = level_premium(parts.limit.ben, parts.limit.ann);
    let renewal = level_premium(parts.renewal.ben, parts.renewal.ann);
    Pair {
        lo: renewal.lo.min(cap.lo).saturating_sub(first.hi),
        hi: renewal.hi.min(cap.hi).saturating_sub(first.lo),
    }
}

/// The net one-year term premium for the benefits of the first year.
fn first_year_premium(rate: u32, bp: u16) -> Pair
    requires rate { rate ≤ ONE }
    requires interest { bp ≤ 2000 }
    ensures lo { result.lo ≡ down (10000 * rate * UNIT) (ONE * (10000 + bp)) }
    ensures hi { result.hi ≡ up (10000 * rate * UNIT) (ONE * (10000 + bp)) }
{
    let denominator = 1_000_000_000 * (10_000 + bp as u128);
    let dividend = 10_000 * rate as u128 * UNITS_IN_ONE as u128;
    Pair {
        lo: quotient_down(dividend, denominator),
        hi: quotient_up(dividend, denominator),
    }
}

/// The level premium: the value of the benefits divided by that of the premiums.
fn level_premium(benefits: Pair, premiums: Pair) -> Pair
    requires due { UNIT ≤ premiums.lo }
    requires due_most { UNIT ≤ premiums.hi }
    requires lo { benefits.lo ≤ 3 * UNIT }
    requires hi { benefits.hi ≤ 3 * UNIT }
    ensures lo { result.lo ≡ down (benefits.lo * UNIT) premiums.hi }
    ensures hi { result.hi ≡ up (benefits.hi * UNIT) premiums.lo }
{
    Pair {
        lo: quotient_down(
            benefits.lo as u128 * UNITS_IN_ONE as u128,
            premiums.hi as u128,
        ),
        hi: quotient_up(
            benefits.hi as u128 * UNITS_IN_ONE as u128,
            premiums.lo as u128,
        ),
    }
}
