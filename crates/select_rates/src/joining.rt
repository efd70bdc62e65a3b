ghost use Rattle.std.specs.Prelude.{◌≡◌, ◌<◌, ◌≤◌, ◌+◌, [], length, slice_index, slice_index_or, EachIndex, IfOk};
ghost use Rattle.rate_table.specs.Rates.{ONE};
ghost use Rattle.select_rates.specs.Select.{IsSelectPeriod, AreSelected};
ghost use Rattle.select_rates.specs.inside.Joined.{AreJoined, IsJoined, AreJoinedTables};

use crate::rows::SelectRows;
use memory_requests::{NoMemory, copied, extend, push};
use rate_table::RateTable;
use std::alloc::Global;

/// The table of each select age.
pub fn prepare(
    alloc: Global,
    first_age: u8,
    rows: &SelectRows,
    ultimate: &RateTable,
) -> Result<Vec<RateTable>, NoMemory>
    requires { AreSelected (record { first_age = first_age; rows = rows.now; ultimate = ultimate.now }) }
    ensures count { IfOk result (λ tables. length tables.items ≡ length rows.now) }
    ensures each { IfOk result (λ tables. AreJoinedTables ultimate.now first_age rows.now tables.items) }
{
    let mut tables = Vec::new(alloc);
    for index in 0..rows.len() {
        let table = table_at(alloc, first_age, rows, index, ultimate)?;
        push(&mut tables, table)?;
    }
    Ok(tables)
}

/// The table of the select age at a place.
#[tactic(auto, using(crate::proofs::Periods::age_at))]
fn table_at(
    alloc: Global,
    first_age: u8,
    rows: &SelectRows,
    index: usize,
    ultimate: &RateTable,
) -> Result<RateTable, NoMemory>
    requires selected { AreSelected (record { first_age = first_age; rows = rows.now; ultimate = ultimate.now }) }
    requires within { index < length rows.now }
    ensures { IfOk result (IsJoined ultimate.now (first_age + index) (slice_index_or rows.now index [])) }
{
    join(alloc, first_age + index as u8, rows.row(index), ultimate)
}

/// The table of an issue age.
fn join(alloc: Global, age: u8, select: &[u32], ultimate: &RateTable) -> Result<RateTable, NoMemory>
    requires { IsSelectPeriod ultimate.now age select.now }
    ensures { IfOk result (IsJoined ultimate.now age select.now) }
{
    let rates = join_rates(alloc, age, select, ultimate)?;
    match RateTable::new(age, rates) {
        Ok(table) => Ok(table),
        Err(_) => unreachable!(),
    }
}

/// The rates of an issue age: the select ones, and after them the ultimate ones.
fn join_rates(
    alloc: Global,
    age: u8,
    select: &[u32],
    ultimate: &RateTable,
) -> Result<Vec<u32>, NoMemory>
    requires { IsSelectPeriod ultimate.now age select.now }
    ensures joined { IfOk result (λ rates. AreJoined ultimate.now age select.now rates.items) }
    ensures bound { IfOk result (λ rates. EachIndex rates.items (λ k. slice_index rates.items k ≤ ONE)) }
    ensures ages { IfOk result (λ rates. age + length rates.items ≤ 131) }
{
    let behind = age as usize + select.len();
    let mut rates = copied(alloc, select)?;
    if behind <= ultimate.last_age() as usize {
        extend(&mut rates, ultimate.rates_from(behind as u8))?;
    }
    Ok(rates)
}
