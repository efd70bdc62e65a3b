ghost use Rattle.std.specs.Prelude.{◌≡◌, ◌+◌, ◌-◌, ◌<◌, ◌≤◌, min, length};
ghost use Rattle.crvm_reserve.specs.Names.{ONE, AreRates, HoldsAge, rate_at, last_age_of, Between, UNIT, cover_of, beta, cap_of, cap_shape, AreValuesAt, AreColumns};
ghost use Rattle.crvm_reserve.specs.Made.{CanReserve, AreMadeFor, premium_of};

use crate::cap::shape_of_cap;
use crate::premium::{Premium, PremiumParts, premium_by};
use present_value::{Columns, Values, columns};
use rate_table::{RateTable, Shape};

/// The modified net premium of a shape by a table, at an interest in basis points.
pub fn basis_premium(table: &RateTable, shape: &Shape, bp: u16, columns: &Columns) -> Premium
    requires can { CanReserve table.now shape.now bp }
    requires columns { AreColumns (cover_of table.now shape.now bp) columns.now }
    ensures rounded { result ≡ premium_of (cover_of table.now shape.now bp) (cap_of table.now shape.now.age bp) }
    ensures exact { Between result.lo result.hi UNIT (beta (cover_of table.now shape.now bp) (cap_of table.now shape.now.age bp)) }
    ensures narrow { result.hi ≤ result.lo + 100000 }
    ensures made { AreMadeFor (cover_of table.now shape.now bp) (cap_of table.now shape.now.age bp) columns.now result }
{
    premium_with_cap(table, table, shape, bp, columns)
}

/// The same with a cap by another table: that of the next issue age, if the rates depend on the duration too. That
/// table holds the next age.
pub fn premium_with_cap(
    table: &RateTable,
    cap_table: &RateTable,
    shape: &Shape,
    bp: u16,
    columns: &Columns,
) -> Premium
    requires can { CanReserve table.now shape.now bp }
    requires cap { HoldsAge cap_table.now (shape.now.age + 1) }
    requires columns { AreColumns (cover_of table.now shape.now bp) columns.now }
    ensures rounded { result ≡ premium_of (cover_of table.now shape.now bp) (cap_of cap_table.now shape.now.age bp) }
    ensures exact { Between result.lo result.hi UNIT (beta (cover_of table.now shape.now bp) (cap_of cap_table.now shape.now.age bp)) }
    ensures narrow { result.hi ≤ result.lo + 100000 }
    ensures made { AreMadeFor (cover_of table.now shape.now bp) (cap_of cap_table.now shape.now.age bp) columns.now result }
{
    premium_by(PremiumParts {
        rate: table.rate(shape.age).unwrap(),
        bp,
        issue: columns.at(0),
        renewal: columns.at(1),
        limit: cap_values(cap_table, shape.age, bp),
    })
}

/// The values at issue of the whole life plan with nineteen premiums at the next age.
fn cap_values(table: &RateTable, age: u8, bp: u16) -> Values
    requires interest { bp ≤ 2000 }
    requires holds { HoldsAge table.now (age + 1) }
    ensures values { AreValuesAt (cap_of table.now age bp) 0 result }
    ensures within { AreRates table.now }
{
    columns(table, &shape_of_cap(table, age), bp).at(0)
}
