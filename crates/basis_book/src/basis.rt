ghost use Rattle.std.specs.Prelude.{◌≡◌, ◌≤◌, ℕ, ◌<◌, ◌<ℤ◌, List, map, All, IsSome, IfOk, IfErr, IfSome, MatchOption};
ghost use Rattle.indexmap.specs.IndexMap.{get_by_text};
ghost use Rattle.basis_book.specs.Dated.{Dated, dated, AreBounded, IsFirstMissing, IsPicked};

use crate::fault::NoSuchTable;
use crate::row::{BasisRows, MOST_ROWS};
use arrayvec::ArrayVec;
use indexmap::IndexMap;
use select_rates::AnyTable;
use std::marker::Model;

/// A basis: for a day of issue it gives a mortality table and a rate of interest.
#[derive(Drop)]
pub struct Basis {
    rows: BasisRows,
    tables: IndexMap<String, AnyTable>,
    /// For each row, the index of its table among the tables. It is an array, since a basis is made without a request
    /// for memory.
    places: ArrayVec<usize, MOST_ROWS>,
}

impl Model for Basis {
    ghost use Rattle.std.specs.Prelude.{List, map, All, IsSome, slice_get};
    ghost use Rattle.indexmap.specs.IndexMap.{get_by_text, values};
    ghost use Rattle.basis_book.specs.Dated.{Dated, dated, AreBounded};
    ghost use Rattle.basis_book.specs.inside.Placed.{ArePlaces};

    ghost Value = { List Dated };

    ghost view = { λ basis. map (dated (get_by_text basis.tables)) basis.rows };

    ghost invariant = { λ basis. AreBounded basis.rows
        × All (λ row. IsSome (get_by_text basis.tables row.table)) basis.rows
        × ArePlaces (slice_get (values basis.tables)) (get_by_text basis.tables) basis.rows basis.places.items };
}

impl Basis {
    /// The basis of these rows, with the tables by their file names.
    pub fn of(rows: BasisRows, tables: IndexMap<String, AnyTable>) -> Result<Basis, NoSuchTable>
        requires { AreBounded rows }
        ensures known { IfOk result (λ basis. All (λ row. IsSome (get_by_text tables row.table)) rows) }
        ensures rows { IfOk result (λ basis. basis ≡ map (dated (get_by_text tables)) rows) }
        ensures missing { IfErr result (λ fault. IsFirstMissing (get_by_text tables) rows fault.0) }
    {
        let mut places = ArrayVec::new();
        for row in rows.as_slice() {
            let Some(place) = tables.get_index_of(row.table.text()) else {
                return Err(NoSuchTable(places.len() as u32 + 1));
            };
            places.push(place);
        }
        Ok(Basis {
            rows,
            tables,
            places,
        })
    }

    /// For a day of issue, the last row whose day isn't after it: the row's place, counted from 0, its table and its
    /// basis points.
    pub fn pick(&self, issued: i32) -> Option<(u16, &AnyTable, u16)>
        ensures picked { MatchOption result (All (λ entry. issued <ℤ entry.from_day) self.now)
            (λ p. (entry : Dated) × IsPicked self.now issued p.0 entry
            × (p.1.now ≡ entry.table) × (p.2 ≡ entry.bp)) }
        ensures bounded { IfSome result (λ p. (p.0 < 1000) × (p.2 ≤ 2000)) }
    {
        let rows = self.rows.as_slice();
        let places = self.places.as_slice();
        for index in (0..rows.len()).rev() {
            let row = &rows[index];
            if row.from_day <= issued {
                let table = &self.tables[places[index]];
                return Some((index as u16, table, row.bp));
            }
        }
        None
    }
}
