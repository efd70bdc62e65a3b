ghost use Rattle.std.specs.Prelude.{◌≡◌, ◌<◌, ◌↔◌, IsNone, IfOk, IfSome};
ghost use Rattle.select_rates.specs.Select.{Selected, AreSelected};
ghost use Rattle.select_rates.specs.inside.Joined.{ArePrepared};
ghost use Rattle.select_rates.specs.Table.{IsTableOf, select_table};

use crate::joining::prepare;
use crate::rows::SelectRows;
use memory_requests::NoMemory;
use rate_table::RateTable;
use std::alloc::Global;
use std::marker::Model;
use std::snapshot::Snapshot;

/// A select and ultimate table. Contracts see its first select age, its select rates and its ultimate table.
#[derive(Drop)]
pub struct SelectTable {
    first_age: u8,
    // The table of each select age.
    prepared: Vec<RateTable>,
    ultimate: RateTable,
    // The select rates, for contracts alone.
    rows: Snapshot<SelectRows>,
}

impl Model for SelectTable {
    ghost use Rattle.select_rates.specs.Select.{Selected};
    ghost use Rattle.select_rates.specs.inside.Joined.{ArePrepared};

    ghost Value = { Selected };

    ghost view = { λ t. record { first_age = t.first_age; rows = t.rows.value; ultimate = t.ultimate } };

    ghost invariant = { λ t. ArePrepared
        (record { first_age = t.first_age; rows = t.rows.value; ultimate = t.ultimate }) t.prepared.items };
}

impl SelectTable {
    /// The table of these select rates, the first of which are those of issue age `first_age`, and of an ultimate
    /// table. It prepares the table of each select age.
    pub fn new(
        alloc: Global,
        first_age: u8,
        rows: SelectRows,
        ultimate: RateTable,
    ) -> Result<SelectTable, NoMemory>
        requires { AreSelected (record { first_age = first_age; rows = rows; ultimate = ultimate }) }
        ensures { let given : Selected = record { first_age = first_age; rows = rows; ultimate = ultimate } in
            IfOk result (λ table. table ≡ given) }
    {
        let prepared = prepare(alloc, first_age, &rows, &ultimate)?;
        let rows = Snapshot::of(&rows);
        Ok(SelectTable {
            first_age,
            prepared,
            ultimate,
            rows,
        })
    }

    /// The table of an issue age, or `None` if the age is below the first select age.
    pub fn along(&self, age: u8) -> Option<&RateTable>
        ensures below { IsNone result ↔ (age < self.now.first_age) }
        ensures table { IfSome result (λ table. IsTableOf self.now age table.now) }
        ensures value { IfSome result (λ table. table.now ≡ select_table self.now age) }
    {
        if age < self.first_age {
            return None;
        }
        let place = (age - self.first_age) as usize;
        if place < self.prepared.len() {
            Some(&self.prepared[place])
        } else {
            Some(&self.ultimate)
        }
    }
}
