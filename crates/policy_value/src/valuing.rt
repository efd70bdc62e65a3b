ghost use Rattle.std.specs.Prelude.{◌≡◌, ◌≤◌, ◌≤ℤ◌, ◌↔◌, ℕ, Ok, Some, IsTrue, slice_get};
ghost use Rattle.policy_value.specs.Names.{Dated, IsPicked, shape_of, AShape, IsIssue};
ghost use Rattle.policy_value.specs.Caches.{IsRightFor};
ghost use Rattle.policy_value.specs.Used.{UsesCache, AsksByBasis, AsksByShape};
ghost use Rattle.policy_value.specs.Measures.{most_worth};
ghost use Rattle.policy_value.specs.Rows.{IsInsured, IsWithinAmount, IsValuedRow};
ghost use Rattle.policy_value.specs.inside.Valued.{IsExact, IsReserveOf, IsValueOf};

use crate::cache::ColumnCache;
use crate::covered::{Covered, IssueRates};
use crate::measures::worth_by;
use crate::worth::{Measure, Row, Worth};
use basis_book::Basis;
use life_dates::completed;
use plan_benefits::{NotValued, shape_along};
use policy_types::{Policy, Status};
use select_rates::AnyTable;

/// The row of a policy in a valuation by a measure on a day, in days since 1970-01-01.
///
/// A policy that is neither in force nor paid up, or that is issued after the day, has the reserve 0.
pub fn row(
    policy: &Policy,
    basis: &Basis,
    on: i32,
    measure: Measure,
    cache: &mut ColumnCache,
) -> Row
    requires sound { IsIssue policy.now.id policy.now.issued policy.now.plan policy.now.age policy.now.years
        policy.now.amount policy.now.premium }
    requires right { IsRightFor basis.now cache.old }
    ensures row { IsValuedRow basis.now on measure policy.now result }
    ensures most { IsWithinAmount (most_worth measure policy.now.amount) result.worth }
    ensures right { IsRightFor basis.now cache.new }
    ensures keys { UsesCache policy.now basis.now on cache.old cache.new }
{
    let (t, worth) = if is_insured(policy, on) {
        value_by_basis(policy, basis, on, measure, cache)
    } else {
        (0, Worth::nothing(measure))
    };
    Row {
        id: policy.id,
        status: policy.status,
        t,
        worth,
    }
}

/// Whether a policy is in force or paid up, and issued by the day.
pub fn is_insured(policy: &Policy, on: i32) -> bool
    ensures { IsTrue result ↔ IsInsured policy.now on }
{
    (policy.status == Status::InForce || policy.status == Status::PaidUp) && policy.issued <= on
}

/// The year and the worth of an insured policy by the basis of its day of issue.
fn value_by_basis(
    policy: &Policy,
    basis: &Basis,
    on: i32,
    measure: Measure,
    cache: &mut ColumnCache,
) -> (u8, Worth)
    requires sound { IsIssue policy.now.id policy.now.issued policy.now.plan policy.now.age policy.now.years
        policy.now.amount policy.now.premium }
    requires issued { policy.now.issued ≤ℤ on }
    requires right { IsRightFor basis.now cache.old }
    ensures value { IsValueOf policy.now basis.now on measure result.0 result.1 }
    ensures exact { (index : ℕ) → (entry : Dated) → IsPicked basis.now policy.now.issued index entry
        → IsExact measure policy.now entry.table entry.bp result.0 result.1 }
    ensures most { IsWithinAmount (most_worth measure policy.now.amount) result.1 }
    ensures right { IsRightFor basis.now cache.new }
    ensures keys { AsksByBasis policy.now basis.now cache.old cache.new }
{
    match basis.pick(policy.issued) {
        Some((place, table, bp)) => {
            value_by_table(policy, basis, place, table, bp, on, measure, cache)
        }
        None => (0, Worth::Word(NotValued::NoBasis)),
    }
}

/// The year and the worth of an insured policy by the table of a row of the basis, at an interest in basis points.
fn value_by_table(
    policy: &Policy,
    basis: &Basis,
    basis_row: u16,
    table: &AnyTable,
    bp: u16,
    on: i32,
    measure: Measure,
    cache: &mut ColumnCache,
) -> (u8, Worth)
    requires sound { IsIssue policy.now.id policy.now.issued policy.now.plan policy.now.age policy.now.years
        policy.now.amount policy.now.premium }
    requires issued { policy.now.issued ≤ℤ on }
    requires row { (entry : Dated) × (slice_get basis.now basis_row ≡ Some entry) × (table.now ≡ entry.table)
        × (bp ≡ entry.bp) }
    requires interest { bp ≤ 2000 }
    requires right { IsRightFor basis.now cache.old }
    ensures value { IsReserveOf policy.now table.now bp on measure
        (shape_of policy.now.plan policy.now.age policy.now.years table.now) result.0 result.1 }
    ensures exact { IsExact measure policy.now table.now bp result.0 result.1 }
    ensures most { IsWithinAmount (most_worth measure policy.now.amount) result.1 }
    ensures right { IsRightFor basis.now cache.new }
    ensures keys { AsksByShape policy.now basis_row
        (shape_of policy.now.plan policy.now.age policy.now.years table.now) cache.old cache.new }
{
    match shape_along(policy.plan, policy.age, policy.years, table) {
        Ok(shape) => {
            let own = IssueRates::of(basis_row, table, bp, shape.age);
            let next = IssueRates::of(basis_row, table, bp, shape.age + 1);
            let covered = Covered { own, next, shape };
            let t = completed(policy.issued, on).min(shape.n);
            let worth = worth_by(policy, basis, &covered, t, measure, cache);
            (t, worth)
        }
        Err(word) => (0, Worth::Word(word)),
    }
}
