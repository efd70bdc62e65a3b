// The cover whose level premium limits that of the renewal years.
ghost use Rattle.std.specs.Prelude.{◌≡◌, ◌≤◌, ◌+◌, length};
ghost use Rattle.crvm_reserve.specs.Names.{AreRates, cap_shape};

use rate_table::{RateTable, Shape};

/// Whole life at the next age, with nineteen premiums, or as many as there are years to the table's end.
pub fn shape_of_cap(table: &RateTable, age: u8) -> Shape
    requires { age + 2 ≤ table.now.first_age + length table.now.rates }
    ensures shape { result ≡ cap_shape table.now age }
    ensures ages { AreRates table.now }
{
    let years = table.last_age() - age;
    Shape {
        age: age + 1,
        n: years,
        h: years.min(19),
        matures: true,
    }
}
