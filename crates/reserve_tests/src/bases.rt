// Bases of the rows: aggregate tables of the ages 0 to 4, and two select tables.
ghost use Rattle.std.specs.Prelude.{◌≡◌, ◌∷◌, [], IfOk};
ghost use Rattle.basis_book.specs.Dated.{AreBounded};
ghost use Rattle.select_rates.specs.Worked.{late_q, selected_q, table_q};

use basis_book::{Basis, BasisRows, LONGEST_FILE, read_basis};
use indexmap::IndexMap;
use rate_table::RateTable;
use select_rates::{AnyTable, SelectRows, SelectTable, select_rates_that_make_tables};
use std::alloc::Global;
use std::test::Fail;

const Q: &[u32] = &[
    100_000_000,
    200_000_000,
    250_000_000,
    500_000_000,
    1_000_000_000,
];

/// The same except for the rate at age 3, which is above one half.
const HIGH: &[u32] = &[
    100_000_000,
    200_000_000,
    250_000_000,
    500_000_001,
    1_000_000_000,
];

fn table(alloc: Global, first_age: u8, rates: &[u32]) -> Result<AnyTable, Fail> {
    match RateTable::new(first_age, rates.to_vec(alloc)?) {
        Ok(table) => Ok(AnyTable::Aggregate(table)),
        Err(_) => Err("a table".into()),
    }
}

fn ultimate(alloc: Global) -> Result<RateTable, Fail>
    ensures { IfOk result (λ table. table ≡ table_q) }
{
    let rates = [
        100_000_000,
        200_000_000,
        250_000_000,
        500_000_000,
        1_000_000_000,
    ]
    .to_vec(alloc)?;
    match RateTable::new(0, rates) {
        Ok(table) => Ok(table),
        Err(_) => Err("a table".into()),
    }
}

fn two_rows(alloc: Global, first: &[u32], second: &[u32]) -> Result<SelectRows, Fail>
    ensures { IfOk result (λ rows. rows ≡ first.now ∷ second.now ∷ []) }
{
    let first = first.to_vec(alloc)?;
    let second = second.to_vec(alloc)?;
    Ok(SelectRows::new(vec![in alloc; first, second]?))
}

/// The select rates 0.1 and 0.2 at age 1, and half of the ultimate ones at age 0.
fn early(alloc: Global) -> Result<AnyTable, Fail> {
    select_rates_that_make_tables();
    let rows = two_rows(
        alloc,
        &[50_000_000, 100_000_000],
        &[100_000_000, 200_000_000],
    )?;
    let table = SelectTable::new(alloc, 0, rows, ultimate(alloc)?)?;
    Ok(AnyTable::Select(table))
}

fn older(alloc: Global) -> Result<AnyTable, Fail> {
    select_rates_that_make_tables();
    let rows = two_rows(alloc, &[10_000_000], &[20_000_000, 30_000_000, 40_000_000])?;
    let table = SelectTable::new(alloc, 3, rows, ultimate(alloc)?)?;
    Ok(AnyTable::Select(table))
}

fn put(
    alloc: Global,
    tables: &mut IndexMap<String, AnyTable>,
    name: &str,
    table: AnyTable,
) -> Result<(), Fail> {
    tables.insert(String::from_str(alloc, name)?, table)?;
    Ok(())
}

fn tables(alloc: Global) -> Result<IndexMap<String, AnyTable>, Fail> {
    let mut tables = IndexMap::new(alloc);
    put(alloc, &mut tables, "q.xml", table(alloc, 0, Q)?)?;
    put(alloc, &mut tables, "high.xml", table(alloc, 0, HIGH)?)?;
    put(alloc, &mut tables, "late.xml", table(alloc, 1, Q)?)?;
    put(alloc, &mut tables, "early.xml", early(alloc)?)?;
    put(alloc, &mut tables, "older.xml", older(alloc)?)?;
    Ok(tables)
}

fn rows_of(alloc: Global, file: &[u8]) -> Result<BasisRows, Fail>
    ensures { IfOk result AreBounded }
{
    if file.len() > LONGEST_FILE {
        return Err("a short file".into());
    }
    match read_basis(alloc, file) {
        Ok(rows) => Ok(rows),
        Err(_) => Err("rows".into()),
    }
}

/// A basis with the tables `q.xml`; `high.xml`, whose rate at age 3 is above one half; `late.xml`, which begins at
/// age 1; and two tables by age at issue, `early.xml` from age 0 on and `older.xml` from age 3 on.
pub fn basis(alloc: Global, file: &[u8]) -> Result<Basis, Fail> {
    match Basis::of(rows_of(alloc, file)?, tables(alloc)?) {
        Ok(basis) => Ok(basis),
        Err(_) => Err("tables".into()),
    }
}
