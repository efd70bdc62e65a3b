ghost use Rattle.std.specs.Prelude.{◌≡◌, ◌-◌, ◌*◌, ◌≤◌, ℕ, max};
ghost use Rattle.deficiency_reserve.specs.Names.{Encloses, Cover, UNIT, down, up, ben_bound, ann_bound, ArePaidUpFor, IsPaidUpAt, IsPaidUpFor};
ghost use Rattle.deficiency_reserve.specs.Minimum.{minimum};
ghost use Rattle.deficiency_reserve.specs.RoundedMinimum.{rounded_minimum};
ghost use Rattle.deficiency_reserve.specs.Ordinary.{HasOrdinary, HasOrdinaryFor, HaveOrdinary, HaveOrdinaryFor};

use present_value::{Columns, UNITS_IN_ONE, Values, quotient_down, quotient_up};

/// A lower and an upper bound of the minimum reserve of an amount at year `t`, in cents, from the bounds of its ordinary
/// reserve and the yearly premium that is charged, in cents.
pub fn minimum_bounds(
    columns: &Columns,
    ordinary: (u64, u64),
    amount: u64,
    premium: u64,
    t: u8,
) -> (u64, u64)
    requires made { HaveOrdinary columns.now t ordinary amount }
    requires insured { 1 ≤ amount }
    requires amount { amount ≤ 10000000000 }
    requires premium { premium ≤ 10000000000 }
    requires year { t ≤ columns.now.n }
    ensures rounded { (c : Cover) → ArePaidUpFor c columns.now → result ≡ rounded_minimum c ordinary amount premium t }
    ensures exact { (c cap : Cover) → HaveOrdinaryFor c cap t columns.now ordinary amount
        → Encloses result.0 result.1 amount (minimum c cap amount premium t) }
    ensures most { result.1 ≤ max ordinary.1 amount }
{
    minimum_by(&columns.at(t), ordinary, amount, premium)
}

/// The same from the values of a cover at a year.
pub fn minimum_by(values: &Values, ordinary: (u64, u64), amount: u64, premium: u64) -> (u64, u64)
    requires made { HasOrdinary values.now ordinary amount }
    requires insured { 1 ≤ amount }
    requires amount { amount ≤ 10000000000 }
    requires premium { premium ≤ 10000000000 }
    ensures rounded { (c : Cover) → (t : ℕ) → IsPaidUpFor c t values.now
        → result ≡ rounded_minimum c ordinary amount premium t }
    ensures exact { (c cap : Cover) → (t : ℕ) → HasOrdinaryFor c cap t values.now ordinary amount
        → Encloses result.0 result.1 amount (minimum c cap amount premium t) }
    ensures most { result.1 ≤ max ordinary.1 amount }
{
    let by_gross = reserve_by_gross(values, amount, premium);
    (ordinary.0.max(by_gross.0), ordinary.1.max(by_gross.1))
}

/// The reserve computed with the premium that is charged.
fn reserve_by_gross(values: &Values, amount: u64, premium: u64) -> (u64, u64)
    requires made { IsPaidUpAt values.now }
    requires amount { amount ≤ 10000000000 }
    requires premium { premium ≤ 10000000000 }
    ensures lo { (c : Cover) → (t : ℕ) → IsPaidUpFor c t values.now → result.0 ≡ down (amount * ben_bound down c t - premium * ann_bound up c t) UNIT }
    ensures hi { (c : Cover) → (t : ℕ) → IsPaidUpFor c t values.now → result.1 ≡ up (amount * ben_bound up c t - premium * ann_bound down c t) UNIT }
{
    let least = (amount as u128 * values.ben.lo as u128).saturating_sub(
        premium as u128 * values.ann.hi as u128,
    );
    let most = (amount as u128 * values.ben.hi as u128).saturating_sub(
        premium as u128 * values.ann.lo as u128,
    );
    (
        quotient_down(least, UNITS_IN_ONE as u128),
        quotient_up(most, UNITS_IN_ONE as u128),
    )
}
