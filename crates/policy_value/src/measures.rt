// What an insured policy is worth at a year of its cover, by each measure.
ghost use Rattle.std.specs.Prelude.{◌≡◌, ◌≤◌, ◌*◌};
ghost use Rattle.policy_value.specs.Names.{Encloses, IsAmount};
ghost use Rattle.policy_value.specs.Caches.{IsRightFor};
ghost use Rattle.policy_value.specs.Used.{AsksByStatus, key_of};
ghost use Rattle.policy_value.specs.Measures.{IsBothOf, IsExactFor, IsWorthOf, exact_reserve, most_worth, rounded_reserve};
ghost use Rattle.policy_value.specs.declared.worth.Measure.TheVariants.{Terminal, Mean, Deficiency};
ghost use Rattle.policy_value.specs.Rows.{IsWithinAmount};
ghost use Rattle.policy_value.specs.inside.Covered.{IsCoverOf, cap_by, cover_by};

use crate::cache::ColumnCache;
use crate::covered::Covered;
use crate::key::CacheKey;
use crate::worth::{Measure, Worth};
use basis_book::Basis;
use crvm_reserve::{MeanParts, bounds_by, bounds_by_unit, mean_by, paid_up_by, paid_up_mean_by};
use deficiency_reserve::{Adequacy, adequacy, minimum_by};
use policy_types::{Policy, Status};

/// What a policy is worth by a measure at year `t` of its cover.
pub fn worth_by(
    policy: &Policy,
    basis: &Basis,
    covered: &Covered<'_>,
    t: u8,
    measure: Measure,
    cache: &mut ColumnCache,
) -> Worth
    requires amounts { IsAmount policy.now.amount × IsAmount policy.now.premium }
    requires cover { IsCoverOf basis.now policy.now.plan policy.now.age policy.now.years covered.now }
    requires year { t ≤ covered.now.shape.n }
    requires right { IsRightFor basis.now cache.old }
    ensures worth { IsWorthOf measure policy.now (cover_by covered.now) (cap_by covered.now) t result }
    ensures exact { IsExactFor measure policy.now (cover_by covered.now) (cap_by covered.now) t result }
    ensures most { IsWithinAmount (most_worth measure policy.now.amount) result }
    ensures right { IsRightFor basis.now cache.new }
    ensures keys { AsksByStatus policy.now covered.now.own.basis_row cache.old cache.new }
{
    match measure {
        Measure::Terminal => {
            let (lo, hi) = bounds(policy, basis, covered, t, cache);
            Worth::Bounds { lo, hi }
        }
        Measure::Mean => {
            let (lo, hi) = mean(policy, basis, covered, t, cache);
            Worth::Bounds { lo, hi }
        }
        Measure::Deficiency => both(policy, basis, covered, t, cache),
    }
}

/// The bounds of the reserve.
fn bounds(
    policy: &Policy,
    basis: &Basis,
    covered: &Covered<'_>,
    t: u8,
    cache: &mut ColumnCache,
) -> (u64, u64)
    requires amount { policy.now.amount ≤ 10000000000 }
    requires cover { IsCoverOf basis.now policy.now.plan policy.now.age policy.now.years covered.now }
    requires year { t ≤ covered.now.shape.n }
    requires right { IsRightFor basis.now cache.old }
    ensures rounded { result ≡ rounded_reserve Terminal policy.now.status (cover_by covered.now) (cap_by covered.now) policy.now.amount t }
    ensures exact { Encloses result.0 result.1 policy.now.amount
        (exact_reserve Terminal policy.now.status (cover_by covered.now) (cap_by covered.now) t) }
    ensures most { result.1 ≤ policy.now.amount }
    ensures right { IsRightFor basis.now cache.new }
    ensures keys { AsksByStatus policy.now covered.now.own.basis_row cache.old cache.new }
{
    if policy.status == Status::PaidUp {
        let values = cache.valued(basis, covered, t);
        return paid_up_by(&values, policy.amount);
    }
    let key = key_of(policy, covered.own.basis_row);
    let unit = cache.unit(basis, key, covered, t);
    bounds_by_unit(unit, policy.amount)
}

/// The bounds of the mean reserve, which is the terminal reserve at the end of cover.
fn mean(
    policy: &Policy,
    basis: &Basis,
    covered: &Covered<'_>,
    t: u8,
    cache: &mut ColumnCache,
) -> (u64, u64)
    requires amount { policy.now.amount ≤ 10000000000 }
    requires cover { IsCoverOf basis.now policy.now.plan policy.now.age policy.now.years covered.now }
    requires year { t ≤ covered.now.shape.n }
    requires right { IsRightFor basis.now cache.old }
    ensures rounded { result ≡ rounded_reserve Mean policy.now.status (cover_by covered.now) (cap_by covered.now) policy.now.amount t }
    ensures exact { Encloses result.0 result.1 policy.now.amount
        (exact_reserve Mean policy.now.status (cover_by covered.now) (cap_by covered.now) t) }
    ensures most { result.1 ≤ 2 * policy.now.amount }
    ensures right { IsRightFor basis.now cache.new }
    ensures keys { AsksByStatus policy.now covered.now.own.basis_row cache.old cache.new }
{
    if t == covered.shape.n {
        return bounds(policy, basis, covered, t, cache);
    }
    if policy.status != Status::PaidUp {
        let key = key_of(policy, covered.own.basis_row);
        let (start, premium) = cache.priced(basis, key, covered, t);
        let end = cache.valued(basis, covered, t + 1);
        let parts = MeanParts {
            t,
            h: covered.shape.h,
            start,
            end,
            premium,
        };
        return mean_by(parts, policy.amount);
    }
    let start = cache.valued(basis, covered, t);
    let end = cache.valued(basis, covered, t + 1);
    paid_up_mean_by(&start, &end, policy.amount)
}

/// The bounds of the reserve and of the minimum reserve. If no premium is due, these are the same.
fn both(
    policy: &Policy,
    basis: &Basis,
    covered: &Covered<'_>,
    t: u8,
    cache: &mut ColumnCache,
) -> Worth
    requires amounts { IsAmount policy.now.amount × IsAmount policy.now.premium }
    requires cover { IsCoverOf basis.now policy.now.plan policy.now.age policy.now.years covered.now }
    requires year { t ≤ covered.now.shape.n }
    requires right { IsRightFor basis.now cache.old }
    ensures both { IsBothOf policy.now (cover_by covered.now) (cap_by covered.now) t result }
    ensures exact { IsExactFor Deficiency policy.now (cover_by covered.now) (cap_by covered.now) t result }
    ensures most { IsWithinAmount policy.now.amount result }
    ensures right { IsRightFor basis.now cache.new }
    ensures keys { AsksByStatus policy.now covered.now.own.basis_row cache.old cache.new }
{
    if policy.status != Status::InForce || t >= covered.shape.h {
        let (lo, hi) = bounds(policy, basis, covered, t, cache);
        return Worth::Both {
            lo,
            hi,
            min_lo: lo,
            min_hi: hi,
            test: Adequacy::Enough,
        };
    }
    let key = key_of(policy, covered.own.basis_row);
    let (values, premium) = cache.priced(basis, key, covered, t);
    let (lo, hi) = bounds_by(&values, &premium, policy.amount);
    let (min_lo, min_hi) = minimum_by(&values, (lo, hi), policy.amount, policy.premium);
    Worth::Both {
        lo,
        hi,
        min_lo,
        min_hi,
        test: adequacy(premium.lo, premium.hi, policy.amount, policy.premium),
    }
}

/// The key of a policy by a row of the basis.
fn key_of(policy: &Policy, basis_row: u16) -> CacheKey
    ensures { result ≡ key_of policy.now basis_row }
{
    CacheKey {
        basis_row,
        plan: policy.plan,
        age: policy.age,
        years: policy.years,
    }
}
