use Plan::{Endowment, Limited, Term, Whole};
use plan_benefits::{NotValued, shape};
use policy_types::Plan;
use rate_table::{RateTable, Shape};
use std::alloc::Global;
use std::test::Fail;
use test_rows::assert_rows;

const RATES: &[u32] = &[
    100_000_000,
    200_000_000,
    500_000_001,
    500_000_000,
    1_000_000_000,
];

/// A plan, an age and years, and the years of cover and of premiums and whether it matures.
type Case = (Plan, u8, u8, Result<(u8, u8, bool), NotValued>);

const CASES: &[Case] = &[
    (Term, 10, 3, Ok((3, 3, false))),
    (Endowment, 10, 5, Ok((5, 5, true))),
    (Whole, 10, 0, Ok((5, 5, true))),
    (Limited, 10, 2, Ok((5, 2, true))),
    (Limited, 11, 20, Ok((4, 4, true))),
    (Whole, 13, 0, Ok((2, 2, true))),
    (Term, 9, 3, Err(NotValued::BelowTable)),
    (Endowment, 10, 6, Err(NotValued::PastTable)),
    (Endowment, 10, 1, Err(NotValued::PastTable)),
    (Whole, 14, 0, Err(NotValued::PastTable)),
    (Limited, 15, 2, Err(NotValued::PastTable)),
    (Term, 12, 4, Err(NotValued::PastTable)),
    (Term, 12, 3, Err(NotValued::RateHigh)),
    (Term, 255, 255, Err(NotValued::PastTable)),
];

fn table(alloc: Global) -> Result<RateTable, Fail> {
    match RateTable::new(10, RATES.to_vec(alloc)?) {
        Ok(table) => Ok(table),
        Err(_) => Err("a table".into()),
    }
}

fn holds(case: Case, table: &RateTable) -> bool {
    let (plan, age, years, expected) = case;
    match (shape(plan, age, years, table), expected) {
        (Ok(found), Ok((n, h, matures))) => found == Shape { age, n, h, matures },
        (Err(found), Err(word)) => found == word,
        _ => false,
    }
}

#[test]
fn shapes_and_faults(rt: HostRuntime) -> Result<(), Fail> {
    let table = table(rt.alloc())?;
    assert_rows!(rt; (number, case) in CASES.iter().enumerate() => holds(*case, &table); "case {number}");
    Ok(())
}
