ghost use Rattle.std.specs.Prelude.{◌≡◌, ◌+◌, ◌*◌, ◌-◌, ◌<◌, ◌≤◌, ℕ};
ghost use Rattle.crvm_reserve.specs.Names.{reserve, Encloses, UNIT, down, up, Cover};
ghost use Rattle.crvm_reserve.specs.Rounded.{reserve_bound, rounded};
ghost use Rattle.crvm_reserve.specs.Made.{AreMade, AreMadeFor, AreClose, IsMadeAt, IsMadeFor, IsUnitAt, IsUnitFor};

use crate::premium::Premium;
use crate::share::{share_down, share_up};
use present_value::{Columns, Pair, UNITS_IN_ONE, Values, quotient_down, quotient_up};

/// A lower and an upper bound of the reserve of an amount at year `t`, in the amount's cents.
pub fn reserve_bounds(columns: &Columns, premium: &Premium, amount: u64, t: u8) -> (u64, u64)
    requires made { AreMade columns.now premium.now }
    requires amount { amount ≤ 10000000000 }
    requires year { t ≤ columns.now.n }
    ensures rounded { (c cap : Cover) → AreMadeFor c cap columns.now premium.now
        → result ≡ rounded c cap amount t }
    ensures exact { (c cap : Cover) → AreMadeFor c cap columns.now premium.now
        → Encloses result.0 result.1 amount (reserve c cap t) }
    ensures most { result.1 ≤ amount }
    ensures close { (c cap : Cover) → AreMadeFor c cap columns.now premium.now
        → AreClose (reserve_bound down up c cap t) (reserve_bound up down c cap t) (reserve c cap t) }
{
    bounds_by(&columns.at(t), premium, amount)
}

/// A lower and an upper bound of the reserve of an amount, in the amount's cents, from the values of a cover at a
/// year and its modified net premium.
pub fn bounds_by(values: &Values, premium: &Premium, amount: u64) -> (u64, u64)
    requires made { IsMadeAt values.now premium.now }
    requires amount { amount ≤ 10000000000 }
    ensures rounded { (c cap : Cover) → (t : ℕ) → IsMadeFor c cap t values.now premium.now
        → result ≡ rounded c cap amount t }
    ensures exact { (c cap : Cover) → (t : ℕ) → IsMadeFor c cap t values.now premium.now
        → Encloses result.0 result.1 amount (reserve c cap t) }
    ensures most { result.1 ≤ amount }
    ensures close { (c cap : Cover) → (t : ℕ) → IsMadeFor c cap t values.now premium.now
        → AreClose (reserve_bound down up c cap t) (reserve_bound up down c cap t) (reserve c cap t) }
{
    bounds_by_unit(unit_reserve(values, premium), amount)
}

/// The same from the reserve per unit of amount.
pub fn bounds_by_unit(unit: Pair, amount: u64) -> (u64, u64)
    requires made { IsUnitAt unit }
    requires amount { amount ≤ 10000000000 }
    ensures rounded { (c cap : Cover) → (t : ℕ) → IsUnitFor c cap t unit → result ≡ rounded c cap amount t }
    ensures exact { (c cap : Cover) → (t : ℕ) → IsUnitFor c cap t unit
        → Encloses result.0 result.1 amount (reserve c cap t) }
    ensures most { result.1 ≤ amount }
{
    (share_down(amount, unit.lo), share_up(amount, unit.hi))
}

/// The reserve per unit of amount, in units of 10^-16.
pub fn unit_reserve(values: &Values, premium: &Premium) -> Pair
    requires made { IsMadeAt values.now premium.now }
    ensures lo { (c cap : Cover) → (t : ℕ) → IsMadeFor c cap t values.now premium.now → result.lo ≡ reserve_bound down up c cap t }
    ensures hi { (c cap : Cover) → (t : ℕ) → IsMadeFor c cap t values.now premium.now → result.hi ≡ reserve_bound up down c cap t }
    ensures unit { (c cap : Cover) → (t : ℕ) → IsMadeFor c cap t values.now premium.now → IsUnitFor c cap t result }
    ensures small_lo { result.lo ≤ UNIT }
    ensures small_hi { result.hi ≤ UNIT }
{
    let most = quotient_up(
        premium.hi as u128 * values.ann.hi as u128,
        UNITS_IN_ONE as u128,
    );
    let least = quotient_down(
        premium.lo as u128 * values.ann.lo as u128,
        UNITS_IN_ONE as u128,
    );
    Pair {
        lo: values.ben.lo.saturating_sub(most),
        hi: values.ben.hi.saturating_sub(least),
    }
}
