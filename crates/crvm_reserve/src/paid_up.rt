// The reserve of a paid-up policy: no premiums are subtracted.
ghost use Rattle.std.specs.Prelude.{◌≡◌, ◌≤◌, ℕ};
ghost use Rattle.crvm_reserve.specs.Names.{Encloses, Cover, ben};
ghost use Rattle.crvm_reserve.specs.Made.{ArePaidUp, ArePaidUpFor, IsPaidUpAt, IsPaidUpFor};
ghost use Rattle.crvm_reserve.specs.Rounded.{rounded_paid_up};

use crate::share::{share_down, share_up};
use present_value::{Columns, Values};

/// A lower and an upper bound of the reserve of a paid-up amount at year `t`, in the amount's cents: the value of its
/// benefits.
pub fn paid_up_bounds(columns: &Columns, amount: u64, t: u8) -> (u64, u64)
    requires made { ArePaidUp columns.now }
    requires amount { amount ≤ 10000000000 }
    requires year { t ≤ columns.now.n }
    ensures rounded { (c : Cover) → ArePaidUpFor c columns.now → result ≡ rounded_paid_up c amount t }
    ensures exact { (c : Cover) → ArePaidUpFor c columns.now → Encloses result.0 result.1 amount (ben c t) }
    ensures most { result.1 ≤ amount }
{
    paid_up_by(&columns.at(t), amount)
}

/// The same from the values of a cover at a year.
pub fn paid_up_by(values: &Values, amount: u64) -> (u64, u64)
    requires made { IsPaidUpAt values.now }
    requires amount { amount ≤ 10000000000 }
    ensures rounded { (c : Cover) → (t : ℕ) → IsPaidUpFor c t values.now → result ≡ rounded_paid_up c amount t }
    ensures exact { (c : Cover) → (t : ℕ) → IsPaidUpFor c t values.now
        → Encloses result.0 result.1 amount (ben c t) }
    ensures most { result.1 ≤ amount }
{
    let benefits = values.ben;
    (
        share_down(amount, benefits.lo),
        share_up(amount, benefits.hi),
    )
}
