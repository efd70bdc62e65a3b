// Select tables: which rates hold at which issue age. The rates were worked out by hand.

ghost use Rattle.std.specs.Prelude.{◌≡◌, ◌∷◌, [], IfOk};
ghost use Rattle.select_rates.specs.Worked.{late_q, selected_q, table_q};

use rate_table::RateTable;
use select_rates::{AnyTable, SelectRows, SelectTable, select_rates_that_make_tables};
use std::alloc::Global;
use std::test::Fail;
use test_rows::assert_rows;

/// Rates by age, in units of 10^-9.
const TABLE_Q: &[u32] = &[
    100_000_000,
    200_000_000,
    250_000_000,
    500_000_000,
    1_000_000_000,
];

/// By issue age, the first age of its table and the rates from there on: select periods of two years at the ages 0 and 1.
const EARLY: &[(u8, u8, &[u32])] = &[
    (
        0,
        0,
        &[
            50_000_000,
            100_000_000,
            250_000_000,
            500_000_000,
            1_000_000_000,
        ],
    ),
    (
        1,
        1,
        &[100_000_000, 200_000_000, 500_000_000, 1_000_000_000],
    ),
    (2, 0, TABLE_Q),
    (255, 0, TABLE_Q),
];

/// The same with periods of one year at the age 3 and of three at the age 4.
const LATE: &[(u8, u8, &[u32])] = &[
    (3, 3, &[10_000_000, 1_000_000_000]),
    (4, 4, &[20_000_000, 30_000_000, 40_000_000]),
    (5, 0, TABLE_Q),
];

fn ultimate(alloc: Global) -> Result<RateTable, Fail>
    ensures { IfOk result (λ table. table ≡ table_q) }
{
    let rates = [
        100_000_000,
        200_000_000,
        250_000_000,
        500_000_000,
        1_000_000_000,
    ]
    .to_vec(alloc)?;
    match RateTable::new(0, rates) {
        Ok(table) => Ok(table),
        Err(_) => Err("a table".into()),
    }
}

fn two_rows(alloc: Global, first: &[u32], second: &[u32]) -> Result<SelectRows, Fail>
    ensures { IfOk result (λ rows. rows ≡ first.now ∷ second.now ∷ []) }
{
    let first = first.to_vec(alloc)?;
    let second = second.to_vec(alloc)?;
    Ok(SelectRows::new(vec![in alloc; first, second]?))
}

fn early(alloc: Global) -> Result<AnyTable, Fail> {
    select_rates_that_make_tables();
    let rows = two_rows(
        alloc,
        &[50_000_000, 100_000_000],
        &[100_000_000, 200_000_000],
    )?;
    let table = SelectTable::new(alloc, 0, rows, ultimate(alloc)?)?;
    Ok(AnyTable::Select(table))
}

fn late(alloc: Global) -> Result<AnyTable, Fail> {
    select_rates_that_make_tables();
    let rows = two_rows(alloc, &[10_000_000], &[20_000_000, 30_000_000, 40_000_000])?;
    let table = SelectTable::new(alloc, 3, rows, ultimate(alloc)?)?;
    Ok(AnyTable::Select(table))
}

/// The first age of the table of an issue age, and its rates.
fn along(table: &AnyTable, age: u8) -> Option<(u8, &[u32])> {
    let table = table.along(age)?;
    Some((table.first_age(), table.rates_from(table.first_age())))
}

#[test]
fn tables_of_issue_ages(rt: HostRuntime) -> Result<(), Fail> {
    let early = early(rt.alloc())?;
    assert_rows!(rt; (age, first_age, rates) in EARLY =>
        along(&early, *age) == Some((*first_age, *rates)); "issue age {age}");
    let late = late(rt.alloc())?;
    assert_rows!(rt; (age, first_age, rates) in LATE =>
        along(&late, *age) == Some((*first_age, *rates)); "issue age {age}");
    assert_eq!(rt; along(&late, 2), None);
    assert_eq!(rt; along(&late, 0), None);
    Ok(())
}

#[test]
fn an_aggregate_table_holds_for_each_issue_age(rt: HostRuntime) -> Result<(), Fail> {
    let table = AnyTable::Aggregate(ultimate(rt.alloc())?);
    assert_rows!(rt; age in [0, 4, 5, 255] => along(&table, age), Some((0, TABLE_Q)); "issue age {age}");
    Ok(())
}
