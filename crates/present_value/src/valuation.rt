ghost use Rattle.std.specs.Prelude.{◌≡◌, ℕ, ◌+◌, ◌<◌, ◌≤◌};
ghost use Rattle.present_value.specs.Sums.{cover_of};
ghost use Rattle.present_value.specs.Values.{CanValue, AreColumns, Enclose, pair_at, pair_of};
ghost use Rattle.present_value.specs.Ends.{CanEnd, value_to};

use crate::column::{Stream, paid_at_end, value_before};
use crate::pair::{Columns, Pair};
use crate::year::year_reciprocal;
use rate_table::{RateTable, Shape};

/// The present values of a shape by a table, at an interest in basis points.
pub fn columns(table: &RateTable, shape: &Shape, bp: u16) -> Columns
    requires { CanValue table.now shape.now bp }
    ensures rounded { AreColumns (cover_of table.now shape.now bp) result }
    ensures exact { Enclose (cover_of table.now shape.now bp) result }
{
    let benefits = Stream::of_benefits(shape.matures);
    Columns {
        n: shape.n,
        h: shape.h,
        ben: values_from(table, bp, benefits, shape.age, shape.n),
        ann: values_from(table, bp, Stream::Annuity, shape.age, shape.h),
    }
}

/// The values of a stream for `years` years from an age on: at the start of each of these years, and at their end.
fn values_from(table: &RateTable, bp: u16, stream: Stream, age: u8, years: u8) -> [Pair; 132]
    requires { CanEnd table.now bp (age + years) age × (1 ≤ years) }
    ensures ages { age + years ≤ 131 }
    ensures within { (t : ℕ) → t ≤ years → pair_at result t ≡ value_to table.now bp stream (age + years) (age + t) }
    ensures rest { (t : ℕ) → years < t → pair_at result t ≡ pair_of 0 0 }
{
    let rates = table.rates_from(age);
    let year = year_reciprocal(bp);
    let paid = paid_at_end(stream);
    let mut pairs = [Pair { lo: 0, hi: 0 }; 132];
    let mut t = years as usize;
    pairs[t] = Pair { lo: paid, hi: paid };
    while t > 0 {
        let later = pairs[t];
        t -= 1;
        pairs[t] = value_before(stream, rates[t], &year, later);
    }
    pairs
}
