ghost use Rattle.std.specs.Prelude.{◌≡◌, ℕ, List, ◌+◌, [], ◌∷◌, ◌<◌, ◌≤◌, length, slice_index_or, Ok, Err, map, IfOk, IfErr, MatchOption, codes};
ghost use Rattle.xtbml_subset.specs.Answers.{Unless};
ghost use Rattle.xtbml_subset.specs.Checks.{factor_of, IsScale};
ghost use Rattle.xtbml_subset.specs.SelectChecks.{first_gap, ReadsUltimate};
ghost use Rattle.xtbml_subset.specs.inside.Steps.{ultimate_of};
ghost use Rattle.xtbml_subset.specs.inside.Steps.{leaves_gap};
ghost use Rattle.xtbml_subset.specs.inside.Elements.{Found, children_at, siblings_at};
ghost use Rattle.xtbml_subset.specs.inside.Rows.{row_of, found_asks};
ghost use Rattle.xtbml_subset.specs.inside.Searches.{IsFirstIn};
ghost use Rattle.xtbml_subset.specs.inside.Views.{found_of, sought_of};

use crate::fault::{TableFault, TableKind};
use crate::found::Element;
use crate::search::Search;
use crate::table::{check_scale, rates_table};
use rate_table::RateTable;
use select_rates::SelectRows;
use std::alloc::Global;

/// The first child with a name, as a search for it.
fn sought<'a>(parent: &Element<'a>, name: &[u8]) -> Search<'a>
    ensures { IsFirstIn name.now (found_of parent.now) (sought_of result) }
{
    match parent.first_child(name) {
        Some(child) => Search::Hit(child),
        None => Search::Missed,
    }
}

/// Whether the factor of the first of some tables leaves its rates as they are.
#[tactic(auto, unfolding(crate::specs::Checks::factor_of))]
pub fn check_ultimate_scale(table: Option<Element<'_>>, total: u32) -> Result<(), TableFault>
    ensures { (tables : List Found)
        → MatchOption table.entry (tables ≡ []) (λ first. tables ≡ found_of first ∷ siblings_at (codes "Table") (found_of first))
        → IsScale (factor_of (found_asks total) tables) result }
{
    match table {
        Some(table) => check_scale(&table, &sought(&table, b"MetaData"), total),
        None => Ok(()),
    }
}

/// The first ultimate rate: in the first axis of the first values of the first of some tables.
#[tactic(auto, unfolding(crate::specs::inside::Steps::ultimate_of))]
pub fn first_ultimate<'a>(table: Option<Element<'a>>) -> Option<Element<'a>>
    ensures { (total : ℕ) (tables : List Found)
        → MatchOption table.entry (tables ≡ []) (λ first. tables ≡ found_of first ∷ siblings_at (codes "Table") (found_of first))
        → MatchOption result
        (ultimate_of (found_asks total) tables ≡ [])
        (λ first. ultimate_of (found_asks total) tables ≡ found_of first ∷ siblings_at (codes "Y") (found_of first)) }
{
    let values = table?.first_child(b"Values")?;
    values.first_child(b"Axis")?.first_child(b"Y")
}

/// How many `Y` there are, from one on.
fn count_rows(first: &Element<'_>) -> usize
    ensures { 1 + length (siblings_at (codes "Y") (found_of first.now)) ≡ result }
{
    let mut count = 0;
    let mut next = Some(*first);
    while let Some(row) = next {
        count += 1;
        next = row.next_sibling(b"Y");
    }
    count
}

/// The ultimate rates from the first on, or the place at which there are none.
pub fn read_ultimate(
    alloc: Global,
    first: Option<Element<'_>>,
    at: u32,
    total: u32,
) -> Result<RateTable, TableFault>
    ensures read { (rates : List Found)
        → MatchOption first.entry (rates ≡ []) (λ row. rates ≡ found_of row ∷ siblings_at (codes "Y") (found_of row))
        → IfOk result (λ table. ReadsUltimate at (map (λ rate. row_of total rate) rates) (Ok table)) }
    ensures fault { (rates : List Found)
        → MatchOption first.entry (rates ≡ []) (λ row. rates ≡ found_of row ∷ siblings_at (codes "Y") (found_of row))
        → IfErr result (λ fault. Unless fault (ReadsUltimate at (map (λ rate. row_of total rate) rates) (Err fault))) }
{
    match first {
        Some(first) => rates_table(alloc, &first, count_rows(&first), total),
        None => Err(TableFault::Bad {
            at,
            kind: TableKind::NoUltimate,
        }),
    }
}

/// Whether the ultimate rates go on from an age, which is directly after a select period, but begin above it.
fn leaves_gap(ultimate: &RateTable, age: usize) -> bool
    ensures { result ≡ leaves_gap ultimate.now age }
{
    age <= ultimate.last_age() as usize && age < ultimate.first_age() as usize
}

/// The place of the first issue age with a gap between its select rates and the ultimate ones.
pub fn first_gap(
    ultimate: &RateTable,
    first_age: u8,
    places: &[u32],
    rows: &SelectRows,
) -> Option<u32>
    requires places { length places.now ≡ length rows.now }
    requires ages { (k : ℕ) → k < length rows.now → first_age + k + length (slice_index_or rows.now k []) ≤ 131 }
    ensures { result ≡ first_gap ultimate.now first_age places.now rows.now }
{
    for index in 0..rows.len() {
        let age = first_age as usize + index + rows.row(index).len();
        if leaves_gap(ultimate, age) {
            return Some(places[index]);
        }
    }
    None
}
