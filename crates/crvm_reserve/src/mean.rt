ghost use Rattle.std.specs.Prelude.{◌≡◌, ◌+◌, ◌*◌, ◌<◌, ◌≤◌, ℕ};
ghost use Rattle.crvm_reserve.specs.Names.{UNIT, down, up, Encloses, Cover, mean_reserve, net_premium};
ghost use Rattle.crvm_reserve.specs.Made.{AreClose, AreMade, AreMadeFor, premium_of};
ghost use Rattle.crvm_reserve.specs.MeanMade.{AreMeanParts, AreMeanPartsOf};
ghost use Rattle.crvm_reserve.specs.Rounded.{reserve_bound};
ghost use Rattle.crvm_reserve.specs.RoundedMean.{net_bound, rounded_mean};

use crate::bounds::{reserve_bounds, unit_reserve};
use crate::premium::Premium;
use present_value::{Columns, Pair, UNITS_IN_ONE, Values, quotient_down, quotient_up};

/// What the mean reserve of year `t` is computed from, if the year is before the end of cover.
#[derive(Clone, Copy, PartialEq, Eq, Debug)]
pub struct MeanParts {
    /// The policy year, from 0.
    pub t: u8,
    /// The years in which a premium is due.
    pub h: u8,
    /// The values at the start of the year.
    pub start: Values,
    /// The values at its end.
    pub end: Values,
    /// The modified net premium.
    pub premium: Premium,
}

/// A lower and an upper bound of the mean reserve of an amount in year `t`, in the amount's cents. At the end of
/// cover the mean reserve is the terminal reserve.
pub fn mean_bounds(columns: &Columns, premium: &Premium, amount: u64, t: u8) -> (u64, u64)
    requires made { AreMade columns.now premium.now }
    requires amount { amount ≤ 10000000000 }
    requires year { t ≤ columns.now.n }
    ensures rounded { (c cap : Cover) → AreMadeFor c cap columns.now premium.now
        → result ≡ rounded_mean c cap amount t }
    ensures exact { (c cap : Cover) → AreMadeFor c cap columns.now premium.now
        → Encloses result.0 result.1 amount (mean_reserve c cap t) }
    ensures most { result.1 ≤ 2 * amount }
    ensures close { (c cap : Cover) → AreMadeFor c cap columns.now premium.now
        → AreClose (net_bound down up c cap t) (net_bound up down c cap t) (net_premium c cap t) }
{
    if t == columns.n {
        return reserve_bounds(columns, premium, amount, t);
    }
    mean_by(
        MeanParts {
            t,
            h: columns.h,
            start: columns.at(t),
            end: columns.at(t + 1),
            premium: *premium,
        },
        amount,
    )
}

/// The same before the end of cover, from the values of a cover at the start and at the end of the year and its
/// modified net premium.
pub fn mean_by(parts: MeanParts, amount: u64) -> (u64, u64)
    requires made { AreMeanParts parts }
    requires amount { amount ≤ 10000000000 }
    ensures rounded { (c cap : Cover) → (t : ℕ) → AreMeanPartsOf c cap t parts
        → result ≡ rounded_mean c cap amount t }
    ensures exact { (c cap : Cover) → (t : ℕ) → AreMeanPartsOf c cap t parts
        → Encloses result.0 result.1 amount (mean_reserve c cap t) }
    ensures most { result.1 ≤ 2 * amount }
{
    half_of(double_mean(&parts), amount)
}

/// The sum of the terminal reserves at the start and at the end of the year and of the net premium, per unit of
/// amount, in units of 10^-16.
fn double_mean(parts: &MeanParts) -> Pair
    requires { AreMeanParts parts.now }
    ensures lo { (c cap : Cover) → (t : ℕ) → AreMeanPartsOf c cap t parts.now → result.lo ≡ reserve_bound down up c cap t + net_bound down up c cap t + reserve_bound down up c cap (t + 1) }
    ensures hi { (c cap : Cover) → (t : ℕ) → AreMeanPartsOf c cap t parts.now → result.hi ≡ reserve_bound up down c cap t + net_bound up down c cap t + reserve_bound up down c cap (t + 1) }
    ensures small_lo { result.lo ≤ 4 * UNIT }
    ensures small_hi { result.hi ≤ 4 * UNIT }
{
    let start = unit_reserve(&parts.start, &parts.premium);
    let net = net_premium_of(&parts.premium, parts.t, parts.h);
    let end = unit_reserve(&parts.end, &parts.premium);
    Pair {
        lo: start.lo + net.lo + end.lo,
        hi: start.hi + net.hi + end.hi,
    }
}

/// The net premium of year `t` per unit of amount, in units of 10^-16, if a premium is due in `h` years.
fn net_premium_of(premium: &Premium, t: u8, h: u8) -> Pair
    requires lo { premium.now.lo ≤ 2 * UNIT }
    requires hi { premium.now.hi ≤ 2 * UNIT }
    ensures lo { (c cap : Cover) → premium.now ≡ premium_of c cap → h ≡ c.h → result.lo ≡ net_bound down up c cap t }
    ensures hi { (c cap : Cover) → premium.now ≡ premium_of c cap → h ≡ c.h → result.hi ≡ net_bound up down c cap t }
    ensures small_lo { result.lo ≤ 2 * UNIT }
    ensures small_hi { result.hi ≤ 2 * UNIT }
{
    if t == 0 {
        return Pair {
            lo: premium.lo.saturating_sub(premium.excess_hi),
            hi: premium.hi.saturating_sub(premium.excess_lo),
        };
    }
    if t < h {
        Pair {
            lo: premium.lo,
            hi: premium.hi,
        }
    } else {
        Pair { lo: 0, hi: 0 }
    }
}

/// Half of a sum for an amount, in the amount's cents, from the sum per unit of amount.
pub fn half_of(sum: Pair, amount: u64) -> (u64, u64)
    requires amount { amount ≤ 10000000000 }
    requires lo { sum.lo ≤ 4 * UNIT }
    requires hi { sum.hi ≤ 4 * UNIT }
    ensures lo { result.0 ≡ down (amount * sum.lo) (2 * UNIT) }
    ensures hi { result.1 ≡ up (amount * sum.hi) (2 * UNIT) }
{
    let divisor = 2 * UNITS_IN_ONE as u128;
    (
        quotient_down(amount as u128 * sum.lo as u128, divisor),
        quotient_up(amount as u128 * sum.hi as u128, divisor),
    )
}
