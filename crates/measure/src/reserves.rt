// Policies drawn from a seed, valued one after the other.
ghost use Rattle.std.specs.Prelude.{◌≡◌, ◌≤◌, ◌≤ℤ◌, ℕ, pos, Option};
ghost use Rattle.policy_types.specs.Valid.{AreYears};
ghost use Rattle.measure.specs.Valued.{Adds, IsWorth};

use crate::words::{Outcome, number_in};
use crvm_reserve::{basis_premium, reserve_bounds};
use life_dates::completed;
use load_maker::{Drawn, Generator};
use plan_benefits::shape;
use present_value::columns;
use rate_table::RateTable;
use std::alloc::{AllocError, Global};
use std::env::Args;
use std::io;

/// 2020-12-31, in days since 1970-01-01.
const ON: i32 = 18_627;

const BASIS_POINTS: u16 = 400;

/// The sums of the bounds of the policies valued so far, in cents.
#[derive(Drop)]
pub struct Totals {
    pub policies: u64,
    pub unvalued: u64,
    pub lower: u64,
    pub upper: u64,
}

impl Totals {
    pub fn new() -> Totals
        ensures policies { (result.policies ≡ 0) × (result.unvalued ≡ 0) }
        ensures sums { (result.lower ≡ 0) × (result.upper ≡ 0) }
    {
        Totals {
            policies: 0,
            unvalued: 0,
            lower: 0,
            upper: 0,
        }
    }

    /// Values a policy and adds its bounds, or counts it as one that has no value. Sums stand still at their
    /// type's end.
    pub fn add(&mut self, policy: &Drawn, table: &RateTable)
        requires years { AreYears policy.now.plan policy.now.age policy.now.years }
        requires amount { policy.now.amount ≤ 100000000 }
        requires issued { (pos 10957 ≤ℤ policy.now.issued) × (policy.now.issued ≤ℤ pos 14606) }
        ensures { (worth : Option (ℕ × ℕ)) × IsWorth policy.now table.now worth × Adds self.old self.new worth }
    {
        match bounds(policy, table) {
            Some((lower, upper)) => {
                self.policies = self.policies.saturating_add(1);
                self.lower = self.lower.saturating_add(lower);
                self.upper = self.upper.saturating_add(upper);
            }
            None => {
                self.policies = self.policies.saturating_add(1);
                self.unvalued = self.unvalued.saturating_add(1);
            }
        }
    }
}

fn bounds(policy: &Drawn, table: &RateTable) -> Option<(u64, u64)>
    requires years { AreYears policy.now.plan policy.now.age policy.now.years }
    requires amount { policy.now.amount ≤ 100000000 }
    requires issued { (pos 10957 ≤ℤ policy.now.issued) × (policy.now.issued ≤ℤ pos 14606) }
    ensures { IsWorth policy.now table.now result }
{
    let policy = *policy;
    let Ok(shape) = shape(policy.plan, policy.age, policy.years, table) else {
        return None;
    };
    let columns = columns(table, &shape, BASIS_POINTS);
    let premium = basis_premium(table, &shape, BASIS_POINTS, &columns);
    let t = completed(policy.issued, ON).min(shape.n);
    Some(reserve_bounds(&columns, &premium, policy.amount, t))
}

/// Values so many policies drawn from a seed on 2020-12-31, by a table of the ages 0 to 120 with the rate 600 units of
/// 10^-9 times the cube of the age, and at most 1, at 4 percent.
pub fn measure_reserves<R: Print + AllocGlobal>(rt: &R, words: &mut Args) -> io::Result<Outcome> {
    let (Some(seed), Some(count)) = (number_in(words), number_in(words)) else {
        return Ok(Outcome::OtherWords);
    };
    let Ok(Some(table)) = table_of_cubes(rt.alloc()) else {
        return Ok(Outcome::NoMemory);
    };
    let mut totals = Totals::new();
    let mut generator = Generator::new(seed % 2_147_483_648);
    for _ in 0..count {
        totals.add(&generator.next_policy(), &table);
    }
    println!(rt;
        "reserves,{},{},{},{}",
        totals.policies, totals.unvalued, totals.lower, totals.upper
    )?;
    Ok(Outcome::Measured)
}

/// The rates of the ages 0 to 120.
pub fn table_of_cubes(alloc: Global) -> Result<Option<RateTable>, AllocError> {
    let mut rates = Vec::new(alloc);
    for age in 0..121u64 {
        rates.push((600 * age * age * age).min(1_000_000_000) as u32)?;
    }
    Ok(RateTable::new(0, rates).ok())
}
