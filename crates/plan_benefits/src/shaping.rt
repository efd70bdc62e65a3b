// The shape of a plan by a table: its cover and premiums by policy year.
ghost use Rattle.std.specs.Prelude.{◌≡◌, ◌<◌, ◌+◌, ℕ, IfOk, IsTrue};
ghost use Rattle.rate_table.specs.Rates.{Rates, AreRates};
ghost use Rattle.select_rates.specs.Along.{IsBelow, table_along};
ghost use Rattle.select_rates.specs.declared.any.AnyTable.TheVariants.{Aggregate};
ghost use Rattle.policy_types.specs.declared.command.Plan.{Plan as APlan};
ghost use Rattle.plan_benefits.specs.Shapes.{FitsAny, FitsTable, HasRates, shape_by, shape_of};
ghost use Rattle.plan_benefits.specs.inside.Ages.{has_age};

use crate::fault::NotValued;
use policy_types::Plan;
use rate_table::{RateTable, Shape};
use select_rates::AnyTable;

/// The shape of a plan's benefits and premiums for an age at issue by a table.
///
/// The years are the years of cover for a term or an endowment, and the years of premiums for a limited plan. Whole
/// life ignores them.
pub fn shape(plan: Plan, age: u8, years: u8, table: &RateTable) -> Result<Shape, NotValued>
    ensures exact { result ≡ shape_by plan age years table.now }
    ensures fits { IfOk result (λ shape. FitsTable plan years table.now shape) }
{
    let Some(rate) = table.rate(age) else {
        let below = age < table.first_age();
        return Err(if below {
            NotValued::BelowTable
        } else {
            NotValued::PastTable
        });
    };
    let left = table.last_age() + 1 - age;
    let n = match plan {
        Plan::Term | Plan::Endowment => years,
        Plan::Whole | Plan::Limited => left,
    };
    let h = if matches!(plan, Plan::Limited) {
        years.min(n)
    } else {
        n
    };
    if n > left || n < 2 {
        return Err(NotValued::PastTable);
    }
    if rate > 500_000_000 {
        return Err(NotValued::RateHigh);
    }
    Ok(Shape {
        age,
        n,
        h,
        matures: !matches!(plan, Plan::Term),
    })
}

/// The shape of a plan's benefits and premiums for an age at issue by a table of either kind, which is by its rates for
/// that age at issue.
///
/// `BelowTable` comes also where the table has none for it, and `PastTable` also where those for the next age at issue,
/// which limit the net premium, don't hold that next age.
#[tactic(auto, using(crate::proofs::AgeAtIssue::has_rates, crate::proofs::AgeAtIssue::next_above))]
pub fn shape_along(plan: Plan, age: u8, years: u8, table: &AnyTable) -> Result<Shape, NotValued>
    requires { age < 255 }
    ensures exact { result ≡ shape_of plan age years table.now }
    ensures age { IfOk result (λ shape. shape.age ≡ age) }
    ensures fits { IfOk result (λ shape. FitsAny plan years table.now shape) }
{
    let Some(own) = table.along(age) else {
        return Err(NotValued::BelowTable);
    };
    let answer = shape(plan, age, years, own);
    if is_capped(table, age + 1) || answer == Err(NotValued::BelowTable) {
        answer
    } else {
        Err(NotValued::PastTable)
    }
}

/// Whether the rates of an age at issue, of which there are some, hold that age.
#[tactic(auto, using(crate::proofs::AgeAtIssue::has_rates))]
fn is_capped(table: &AnyTable, age: u8) -> bool
    requires { IsBelow table.now age → ⊥ }
    ensures holds { result ≡ has_age (table_along table.now age) age }
    ensures rates { IsTrue result → HasRates table.now age }
{
    match table.along(age) {
        Some(next) => next.rate(age).is_some(),
        None => unreachable!(),
    }
}

/// By a table by age alone it is the shape of that table, whatever the age at issue.
pub fn shapes_by_age_alone()
    ensures { (plan : APlan) (age years : ℕ) (table : Rates) → AreRates table
        → shape_of plan age years (Aggregate table) ≡ shape_by plan age years table }
{}
