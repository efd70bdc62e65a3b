ghost use Rattle.std.specs.Prelude.{◌≡◌, ◌↔◌, IsNone, IfSome};
ghost use Rattle.select_rates.specs.Along.{IsBelow, IsAlong, table_along};

use crate::table::SelectTable;
use rate_table::RateTable;

/// A mortality table, whose rates depend on the age alone, or on the age at issue and the duration.
#[derive(Drop)]
pub enum AnyTable {
    Aggregate(RateTable),
    Select(SelectTable),
}

impl AnyTable {
    /// The table of an issue age: at each attained age it has the rate of a life that was insured at that issue age.
    /// `None` exactly if the table is select and the age is below its first select age.
    pub fn along(&self, age: u8) -> Option<&RateTable>
        ensures below { IsNone result ↔ IsBelow self.now age }
        ensures table { IfSome result (λ table. IsAlong self.now age table.now) }
        ensures value { IfSome result (λ table. table.now ≡ table_along self.now age) }
    {
        match self {
            AnyTable::Aggregate(table) => Some(table),
            AnyTable::Select(table) => table.along(age),
        }
    }
}
