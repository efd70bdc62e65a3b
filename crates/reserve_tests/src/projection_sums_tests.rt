ghost use Rattle.std.specs.Prelude.{IsTrue};
ghost use Rattle.std.specs.List.{AllByRecursion};
ghost use Rattle.cash_projection.specs.Policies.{IsOfIssue};

// Projections of many policies. The cents were computed outside this program by exact fractions, and rounded down and up.
use crate::bases::basis;
use crate::cash_projection_tests::{are_bounded, is_of_issue, projected};
use crate::policy_rows::{DAY_BEFORE, FLAT, ISSUED, ONE_YEAR};
use cash_projection::Year;
use policy_types::{Plan, Policy, Status};
use std::alloc::Global;
use std::test::Fail;
use test_rows::assert_rows;

/// Whether issues can make the policies.
fn are_of_issue(policies: &[Policy]) -> bool
    ensures { IsTrue result → AllByRecursion IsOfIssue policies.now }
{
    let Some((policy, rest)) = policies.split_first() else {
        return true;
    };
    is_of_issue(policy) && are_of_issue(rest)
}

/// The years of so many policies like this one by table Q.
fn cash_of_many(alloc: Global, policy: &Policy, on: i32, many: usize) -> Result<Vec<Year>, Fail> {
    let mut policies = Vec::new(alloc);
    for _ in 0..many {
        policies.push(*policy)?;
    }
    if policies.len() > 4_000_000 || !are_of_issue(policies.as_slice()) {
        return Err("valid issues".into());
    }
    let basis = basis(alloc, FLAT)?;
    let Ok((years, _)) = projected(alloc, policies.as_slice(), &basis, on, 4) else {
        return Err("memory".into());
    };
    Ok(years.as_slice().to_vec(alloc)?)
}

const SMALL: Policy = Policy {
    id: 7001,
    plan: Plan::Term,
    age: 1,
    years: 3,
    amount: 99_999,
    premium: 333,
    issued: ISSUED,
    last: ISSUED,
    paid: 0,
    status: Status::InForce,
    outstanding: 0,
};

const GREATEST: Policy = Policy {
    id: 7001,
    plan: Plan::Endowment,
    age: 0,
    years: 4,
    amount: 10_000_000_000,
    premium: 10_000_000_000,
    issued: ISSUED,
    last: ISSUED,
    paid: 0,
    status: Status::InForce,
    outstanding: 0,
};

/// `count` equal policies, and the six bounds of each year.
struct Sum {
    name: &'static str,
    policy: Policy,
    on: i32,
    many: usize,
    expected: &'static [[u64; 6]],
}

// The sums over all policies are rounded, and not each policy's part; and a thousand of the greatest amounts.
const SUMS: &[Sum] = &[
    Sum {
        name: "three",
        policy: SMALL,
        on: DAY_BEFORE,
        many: 3,
        expected: &[
            [999, 999, 59_999, 60_000, 0, 0],
            [799, 800, 59_999, 60_000, 0, 0],
            [599, 600, 89_999, 90_000, 0, 0],
            [0; 6],
        ],
    },
    Sum {
        name: "a thousand",
        policy: SMALL,
        on: DAY_BEFORE,
        many: 1_000,
        expected: &[
            [333_000, 333_000, 19_999_800, 19_999_800, 0, 0],
            [266_400, 266_400, 19_999_800, 19_999_800, 0, 0],
            [199_800, 199_800, 29_999_700, 29_999_700, 0, 0],
            [0; 6],
        ],
    },
    Sum {
        name: "a thousand of the greatest",
        policy: GREATEST,
        on: ONE_YEAR,
        many: 1_000,
        expected: &[
            [
                10_000_000_000_000,
                10_000_000_000_000,
                2_000_000_000_000,
                2_000_000_000_000,
                0,
                0,
            ],
            [
                8_000_000_000_000,
                8_000_000_000_000,
                2_000_000_000_000,
                2_000_000_000_000,
                0,
                0,
            ],
            [
                6_000_000_000_000,
                6_000_000_000_000,
                3_000_000_000_000,
                3_000_000_000_000,
                3_000_000_000_000,
                3_000_000_000_000,
            ],
            [0; 6],
        ],
    },
];

fn holds(alloc: Global, sum: &Sum) -> Result<bool, Fail> {
    let years = cash_of_many(alloc, &sum.policy, sum.on, sum.many)?;
    Ok(are_bounded(years.as_slice(), sum.expected))
}

#[test]
fn years_of_many_policies(rt: HostRuntime) -> Result<(), Fail> {
    assert_rows!(rt; sum in SUMS => holds(rt.alloc(), sum)?; "{}", sum.name);
    Ok(())
}
