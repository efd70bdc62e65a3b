ghost use Rattle.std.specs.Prelude.{IsTrue, ◌≤◌, length};
ghost use Rattle.std.specs.List.{AllByRecursion};
ghost use Rattle.cash_projection.specs.Policies.{IsOfIssue};

// Projections of cash. The cents were computed outside this program by exact fractions, and rounded down and up.
use crate::bases::basis;
use crate::policy_rows::{EARLY, FLAT, ISSUED, ONE_YEAR, THREE_YEARS};
use crate::projection_rows::{PROJECTED, Projected};
use basis_book::Basis;
use cash_projection::{Paths, Year, Years, tally_policies};
use policy_types::{Command, NoMemory, Plan, Policy, Status};
use std::alloc::Global;
use std::test::Fail;
use test_rows::assert_rows;

/// Whether an issue can make the policy.
pub fn is_of_issue(policy: &Policy) -> bool
    ensures { IsTrue result → IsOfIssue policy.now }
{
    let issue = Command::Issue {
        id: policy.id,
        day: policy.issued,
        plan: policy.plan,
        age: policy.age,
        years: policy.years,
        amount: policy.amount,
        premium: policy.premium,
    };
    issue.is_valid()
}

/// The years of policies, and how many have no value.
pub fn projected(
    alloc: Global,
    policies: &[Policy],
    basis: &Basis,
    on: i32,
    years: u8,
) -> Result<(Years, u32), NoMemory>
    requires sound { AllByRecursion IsOfIssue policies.now }
    requires few { length policies.now ≤ 4000000 }
    requires years { years ≤ 131 }
{
    let mut paths = Paths::new(alloc, 240)?;
    let tally = tally_policies(policies, basis, on, years, &mut paths);
    Ok((tally.cash(alloc)?, tally.unvalued))
}

/// The years of one policy by the basis of a file, and how many have no value.
fn cash(
    alloc: Global,
    file: &[u8],
    policy: &Policy,
    on: i32,
    years: u8,
) -> Result<(Vec<Year>, u32), Fail> {
    if !is_of_issue(policy) || years > 131 {
        return Err("a valid issue".into());
    }
    let basis = basis(alloc, file)?;
    let Ok((years, unvalued)) = projected(alloc, &[*policy], &basis, on, years) else {
        return Err("memory".into());
    };
    Ok((years.as_slice().to_vec(alloc)?, unvalued))
}

/// The six bounds of a year.
fn bounds(year: &Year) -> [u64; 6] {
    [
        year.premium.lo,
        year.premium.hi,
        year.death.lo,
        year.death.hi,
        year.maturity.lo,
        year.maturity.hi,
    ]
}

/// Whether the years have exactly these bounds.
pub fn are_bounded(years: &[Year], expected: &[[u64; 6]]) -> bool {
    if years.len() != expected.len() {
        return false;
    }
    for (year, expected) in years.iter().zip(expected) {
        if bounds(year) != *expected {
            return false;
        }
    }
    true
}

const WITHOUT_CASH: &[Projected] = &[
    Projected {
        name: "issued later",
        file: FLAT,
        plan: Plan::Endowment,
        age: 0,
        years: 3,
        amount: 100_000,
        premium: 40_000,
        paid: 0,
        status: Status::InForce,
        on: ISSUED - 1,
        unvalued: 0,
        expected: &[[0; 6], [0; 6]],
    },
    Projected {
        name: "lapsed",
        file: FLAT,
        plan: Plan::Endowment,
        age: 0,
        years: 3,
        amount: 100_000,
        premium: 40_000,
        paid: 0,
        status: Status::Lapsed,
        on: ONE_YEAR,
        unvalued: 0,
        expected: &[[0; 6], [0; 6]],
    },
    Projected {
        name: "claimed",
        file: FLAT,
        plan: Plan::Endowment,
        age: 0,
        years: 3,
        amount: 100_000,
        premium: 40_000,
        paid: 0,
        status: Status::Claimed,
        on: ONE_YEAR,
        unvalued: 0,
        expected: &[[0; 6], [0; 6]],
    },
    Projected {
        name: "its end",
        file: FLAT,
        plan: Plan::Endowment,
        age: 0,
        years: 3,
        amount: 100_000,
        premium: 40_000,
        paid: 0,
        status: Status::InForce,
        on: THREE_YEARS,
        unvalued: 0,
        expected: &[[0; 6], [0; 6]],
    },
    Projected {
        name: "no basis yet",
        file: b"2020-01-02,q.xml,0",
        plan: Plan::Endowment,
        age: 0,
        years: 3,
        amount: 100_000,
        premium: 40_000,
        paid: 0,
        status: Status::InForce,
        on: ONE_YEAR,
        unvalued: 1,
        expected: &[[0; 6], [0; 6]],
    },
    Projected {
        name: "below the table",
        file: b"1900-01-01,late.xml,0",
        plan: Plan::Endowment,
        age: 0,
        years: 3,
        amount: 100_000,
        premium: 40_000,
        paid: 0,
        status: Status::InForce,
        on: ONE_YEAR,
        unvalued: 1,
        expected: &[[0; 6], [0; 6]],
    },
    Projected {
        name: "past the table",
        file: FLAT,
        plan: Plan::Term,
        age: 3,
        years: 3,
        amount: 100_000,
        premium: 40_000,
        paid: 0,
        status: Status::InForce,
        on: ONE_YEAR,
        unvalued: 1,
        expected: &[[0; 6], [0; 6]],
    },
    Projected {
        name: "a high rate",
        file: b"1900-01-01,high.xml,0",
        plan: Plan::Term,
        age: 3,
        years: 2,
        amount: 100_000,
        premium: 40_000,
        paid: 0,
        status: Status::InForce,
        on: ONE_YEAR,
        unvalued: 1,
        expected: &[[0; 6], [0; 6]],
    },
];

fn policy_of(row: &Projected) -> Policy {
    Policy {
        id: 7001,
        plan: row.plan,
        age: row.age,
        years: row.years,
        amount: row.amount,
        premium: row.premium,
        issued: ISSUED,
        last: ISSUED,
        paid: row.paid,
        status: row.status,
        outstanding: 0,
    }
}

// Whether the years are these, and so many policies have no value.
fn holds(alloc: Global, row: &Projected) -> Result<bool, Fail> {
    let many = row.expected.len().min(131) as u8;
    let (years, unvalued) = cash(alloc, row.file, &policy_of(row), row.on, many)?;
    Ok(unvalued == row.unvalued && are_bounded(years.as_slice(), row.expected))
}

#[test]
fn years_of_one_policy(rt: HostRuntime) -> Result<(), Fail> {
    assert_rows!(rt; rows in [PROJECTED, WITHOUT_CASH], row in rows => holds(rt.alloc(), row)?; "{}", row.name);
    Ok(())
}

const FIRST: Policy = Policy {
    id: 7001,
    plan: Plan::Endowment,
    age: 0,
    years: 3,
    amount: 100_000,
    premium: 40_000,
    issued: ISSUED,
    last: ISSUED,
    paid: 1,
    status: Status::InForce,
    outstanding: 0,
};

const SECOND: Policy = Policy {
    id: 7001,
    plan: Plan::Endowment,
    age: 1,
    years: 2,
    amount: 100_000,
    premium: 40_000,
    issued: ONE_YEAR,
    last: ONE_YEAR,
    paid: 0,
    status: Status::InForce,
    outstanding: 0,
};

// Two policies of one age and two ages at issue, by a select table: 0.1 and 0.25 for the first, 0.1 and 0.2 for the second.
const BY_AGE_AT_ISSUE: &[[u64; 6]] = &[
    [80_000, 80_000, 20_000, 20_000, 0, 0],
    [72_000, 72_000, 40_500, 40_500, 139_500, 139_500],
    [0; 6],
];

fn are_by_age_at_issue(alloc: Global) -> Result<bool, Fail> {
    if !is_of_issue(&FIRST) || !is_of_issue(&SECOND) {
        return Err("valid issues".into());
    }
    let basis = basis(alloc, EARLY)?;
    let Ok((years, unvalued)) = projected(alloc, &[FIRST, SECOND], &basis, ONE_YEAR, 3) else {
        return Err("memory".into());
    };
    Ok(unvalued == 0 && are_bounded(years.as_slice(), BY_AGE_AT_ISSUE))
}

#[test]
fn years_by_the_age_at_issue(rt: HostRuntime) -> Result<(), Fail> {
    assert!(rt; are_by_age_at_issue(rt.alloc())?);
    Ok(())
}
