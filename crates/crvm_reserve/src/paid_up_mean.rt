// The mean reserve of a paid-up policy: no premium is due.
ghost use Rattle.std.specs.Prelude.{◌≡◌, ◌*◌, ◌≤◌, ℕ};
ghost use Rattle.crvm_reserve.specs.Names.{paid_up_mean, Encloses, Cover};
ghost use Rattle.crvm_reserve.specs.Made.{ArePaidUp, ArePaidUpFor};
ghost use Rattle.crvm_reserve.specs.MeanMade.{ArePaidUpMean, ArePaidUpMeanOf};
ghost use Rattle.crvm_reserve.specs.RoundedMean.{rounded_paid_up_mean};

use crate::mean::half_of;
use crate::paid_up::paid_up_bounds;
use present_value::{Columns, Pair, Values};

/// A lower and an upper bound of the mean reserve of a paid-up amount in year `t`, in the amount's cents. At the end
/// of cover the mean reserve is the terminal reserve.
pub fn paid_up_mean_bounds(columns: &Columns, amount: u64, t: u8) -> (u64, u64)
    requires made { ArePaidUp columns.now }
    requires amount { amount ≤ 10000000000 }
    requires year { t ≤ columns.now.n }
    ensures rounded { (c : Cover) → ArePaidUpFor c columns.now → result ≡ rounded_paid_up_mean c amount t }
    ensures exact { (c : Cover) → ArePaidUpFor c columns.now
        → Encloses result.0 result.1 amount (paid_up_mean c t) }
    ensures most { result.1 ≤ amount }
{
    if t == columns.n {
        return paid_up_bounds(columns, amount, t);
    }
    paid_up_mean_by(&columns.at(t), &columns.at(t + 1), amount)
}

/// The same before the end of cover, from the values of a cover at the start and at the end of the year.
pub fn paid_up_mean_by(start: &Values, end: &Values, amount: u64) -> (u64, u64)
    requires made { ArePaidUpMean start.now end.now }
    requires amount { amount ≤ 10000000000 }
    ensures rounded { (c : Cover) → (t : ℕ) → ArePaidUpMeanOf c t start.now end.now
        → result ≡ rounded_paid_up_mean c amount t }
    ensures exact { (c : Cover) → (t : ℕ) → ArePaidUpMeanOf c t start.now end.now
        → Encloses result.0 result.1 amount (paid_up_mean c t) }
    ensures most { result.1 ≤ amount }
{
    half_of(
        Pair {
            lo: start.ben.lo + end.ben.lo,
            hi: start.ben.hi + end.ben.hi,
        },
        amount,
    )
}
