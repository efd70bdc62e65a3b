use crvm_reserve::{basis_premium, reserve_bounds};
use present_value::columns;
use rate_table::{RateTable, Shape};
use std::alloc::{AllocError, Global};
use std::test::Fail;

/// The tables of the cases.
#[derive(Clone, Copy)]
pub(crate) enum Rates {
    /// The ages 0 to 4, with the rates 0.1, 0.2, 0.25, 0.5 and 1.
    Q,
    /// The ages 0 to 120, with the rate 600 units of 10^-9 times the cube of the age, and at most 1.
    G,
    /// The ages 0 to 4, with the rates 0.1, 0.2, 0.25, 0.5 and 0.5: whoever is left at the end survives.
    Survived,
    /// The ages 40 to 44, with the rates 0.4, 0.01, 0.02, 0.5 and 1: the first year's premium is above the level one.
    Steep,
}

use Rates::{G, Q, Steep, Survived};
use test_rows::assert_rows;

const Q_RATES: [u32; 5] = [
    100_000_000,
    200_000_000,
    250_000_000,
    500_000_000,
    1_000_000_000,
];

const SURVIVED_RATES: [u32; 5] = [
    100_000_000,
    200_000_000,
    250_000_000,
    500_000_000,
    500_000_000,
];

const STEEP_RATES: [u32; 5] = [
    400_000_000,
    10_000_000,
    20_000_000,
    500_000_000,
    1_000_000_000,
];

/// Table, age, years of cover, years of premiums, whether it matures, basis points, amount, year, and
/// the lower and the upper bound.
type Case = (Rates, u8, u8, u8, bool, u16, u64, u8, u64, u64);

/// Cases that an actuary can follow by hand.
const BY_HAND: &[Case] = &[
    (Q, 0, 3, 3, true, 0, 100000, 1, 12722, 12723),
    (Q, 0, 3, 3, true, 0, 100000, 2, 51512, 51513),
    (Q, 0, 3, 3, true, 0, 100000, 3, 100000, 100000),
    (Q, 0, 3, 3, false, 0, 100000, 1, 0, 1),
    (Q, 0, 3, 3, false, 0, 100000, 2, 2777, 2778),
    (Q, 0, 3, 3, false, 0, 100000, 3, 0, 0),
    (Q, 0, 3, 3, false, 500, 100000, 1, 0, 1),
    (Q, 0, 3, 3, false, 500, 100000, 2, 2702, 2703),
    (Q, 0, 3, 3, false, 500, 100000, 3, 0, 0),
    (Q, 0, 5, 2, true, 0, 100000, 1, 33138, 33139),
    (Q, 0, 5, 2, true, 0, 100000, 2, 100000, 100000),
    (Q, 3, 2, 2, true, 0, 100000, 1, 0, 0),
    (Q, 3, 2, 2, true, 0, 100000, 2, 100000, 100000),
    // the plan of the cap pays the survivor too
    (Survived, 0, 3, 3, true, 0, 100000, 0, 0, 0),
    (Survived, 0, 3, 3, true, 0, 100000, 1, 12722, 12723),
    (Survived, 0, 3, 3, true, 0, 100000, 2, 51512, 51513),
    (Survived, 0, 3, 3, true, 0, 100000, 3, 100000, 100000),
    // no excess is below 0
    (Steep, 40, 3, 3, true, 0, 100000, 0, 0, 1),
    (Steep, 40, 3, 3, true, 0, 100000, 1, 9298, 9299),
    (Steep, 40, 3, 3, true, 0, 100000, 2, 54421, 54422),
    (Steep, 40, 3, 3, true, 0, 100000, 3, 100000, 100000),
];

/// A hundred shapes drawn at random. Their bounds were computed outside this program, by the rounded
/// recursion in whole numbers of any length, and each was compared there with the reserve as an exact
/// fraction, found by the sums over the years: the two enclose it.
const DRAWN: &[Case] = &[
    (Q, 3, 2, 2, true, 275, 99, 0, 0, 0),
    (Q, 3, 2, 2, true, 1250, 1, 0, 0, 0),
    (Q, 1, 4, 3, true, 350, 1, 2, 0, 1),
    (Q, 1, 2, 2, false, 0, 6516716, 2, 0, 0),
    (Q, 3, 2, 2, true, 275, 10000000000, 1, 0, 1),
    (Q, 3, 2, 2, true, 350, 100000, 1, 0, 1),
    (Q, 0, 5, 3, true, 0, 99, 5, 99, 99),
    (Q, 1, 2, 2, true, 500, 100000, 2, 100000, 100000),
    (Q, 0, 3, 3, true, 275, 100000, 2, 50854, 50855),
    (Q, 2, 3, 3, true, 25, 6967879, 2, 2318761, 2318762),
    (Q, 1, 4, 4, true, 0, 1, 4, 1, 1),
    (Q, 0, 5, 2, true, 69, 9914773, 0, 0, 0),
    (Q, 1, 2, 2, true, 2000, 100000, 1, 28176, 28177),
    (Q, 3, 2, 2, true, 1250, 1, 2, 1, 1),
    (Q, 1, 4, 3, true, 2000, 5800531468, 0, 0, 0),
    (Q, 1, 4, 4, true, 500, 100000, 3, 51324, 51325),
    (Q, 2, 3, 3, true, 1, 100000, 2, 33331, 33332),
    (Q, 3, 2, 2, false, 1250, 1, 1, 0, 1),
    (Q, 3, 2, 2, true, 2000, 99, 2, 99, 99),
    (Q, 2, 2, 2, false, 350, 1, 1, 0, 1),
    (G, 52, 17, 17, true, 1, 5046672, 1, 18916, 18917),
    (G, 94, 27, 27, true, 25, 1, 27, 1, 1),
    (G, 73, 48, 19, true, 2000, 1, 1, 0, 1),
    (G, 69, 52, 52, true, 860, 7799384, 1, 0, 1),
    (G, 8, 23, 23, true, 1269, 99, 1, 0, 1),
    (G, 62, 59, 20, true, 1, 99, 1, 0, 1),
    (G, 40, 81, 81, true, 1, 1, 1, 0, 1),
    (G, 47, 31, 31, false, 400, 100000, 17, 38538, 38539),
    (G, 23, 98, 9, true, 350, 1, 1, 0, 1),
    (G, 76, 14, 14, false, 999, 9593760, 1, 0, 1),
    (G, 35, 86, 86, true, 2000, 99, 60, 66, 67),
    (G, 94, 27, 13, true, 500, 99, 25, 94, 95),
    (G, 88, 33, 33, true, 1, 100000, 33, 100000, 100000),
    (G, 51, 26, 26, true, 25, 9587974, 1, 0, 1),
    (G, 62, 38, 38, true, 1250, 99, 36, 62, 63),
    (G, 47, 16, 16, true, 275, 100000, 16, 100000, 100000),
    (G, 3, 118, 118, true, 1705, 9608974, 15, 405192, 405193),
    (G, 15, 10, 10, false, 1190, 10000000000, 10, 0, 0),
    (G, 85, 36, 36, true, 0, 100000, 1, 0, 1),
    (G, 8, 16, 16, false, 999, 1, 16, 0, 0),
    (G, 87, 32, 32, false, 2000, 99, 5, 8, 9),
    (G, 11, 9, 9, false, 275, 100000, 8, 175, 176),
    (G, 70, 27, 27, false, 25, 99, 27, 0, 0),
    (G, 82, 29, 29, true, 350, 100000, 12, 27368, 27369),
    (G, 24, 97, 97, true, 1250, 100000, 97, 100000, 100000),
    (G, 65, 56, 18, true, 1250, 3817086370, 1, 303365, 303366),
    (G, 33, 88, 34, true, 350, 100000, 87, 96618, 96619),
    (G, 53, 68, 11, true, 536, 1, 67, 0, 1),
    (G, 29, 2, 2, true, 350, 1, 1, 0, 1),
    (G, 30, 24, 24, false, 1250, 1292909, 13, 181846, 181847),
    (G, 49, 72, 72, true, 2000, 100000, 18, 26936, 26937),
    (G, 68, 40, 40, false, 0, 1, 40, 0, 0),
    (G, 78, 43, 38, true, 1, 9823387, 13, 3136033, 3136034),
    (G, 18, 103, 103, true, 0, 99, 49, 82, 83),
    (G, 11, 5, 5, false, 275, 7868718113, 5, 0, 0),
    (G, 10, 111, 16, true, 350, 100000, 31, 66686, 66687),
    (G, 86, 22, 22, true, 2000, 1, 1, 0, 1),
    (G, 45, 38, 38, false, 275, 1, 2, 0, 1),
    (G, 60, 61, 25, true, 275, 100000, 1, 0, 1),
    (G, 7, 114, 9, true, 999, 5799602, 56, 3667296, 3667297),
    (G, 94, 27, 27, false, 275, 5507360, 15, 1731669, 1731670),
    (G, 14, 107, 31, true, 2000, 99, 107, 99, 99),
    (G, 1, 10, 10, true, 2000, 1, 0, 0, 0),
    (G, 63, 16, 16, false, 2000, 1, 1, 0, 1),
    (G, 12, 7, 7, true, 400, 7740407, 5, 5248017, 5248018),
    (G, 43, 78, 78, true, 275, 1, 67, 0, 1),
    (G, 61, 9, 9, false, 0, 10000000000, 1, 0, 1),
    (G, 88, 33, 33, true, 25, 2287253, 3, 136096, 136097),
    (G, 91, 30, 30, true, 350, 99, 16, 33, 34),
    (G, 83, 38, 38, true, 1, 99, 37, 61, 62),
    (G, 17, 104, 29, true, 25, 100000, 103, 99750, 99751),
    (G, 71, 30, 30, false, 275, 1, 30, 0, 0),
    (G, 27, 94, 94, true, 2000, 10000000000, 1, 0, 1),
    (G, 9, 112, 33, true, 1, 3099523, 83, 3098881, 3098882),
    (G, 42, 4, 4, false, 275, 99, 0, 0, 0),
    (G, 6, 115, 2, true, 25, 1749735, 114, 1745371, 1745372),
    (G, 60, 61, 61, true, 500, 3705190, 0, 0, 0),
    (G, 47, 74, 74, true, 350, 99, 74, 99, 99),
    (G, 50, 71, 71, true, 400, 1839321, 21, 862937, 862938),
    (G, 69, 17, 17, true, 2000, 99, 16, 64, 65),
    (G, 49, 72, 72, true, 999, 1, 71, 0, 1),
    (G, 23, 98, 98, true, 363, 1200726, 64, 1020763, 1020764),
    (G, 14, 13, 13, false, 1, 1, 1, 0, 1),
    (G, 11, 34, 34, false, 350, 100000, 33, 3809, 3810),
    (G, 9, 112, 39, true, 400, 99, 84, 91, 92),
    (G, 50, 20, 20, false, 400, 100000, 19, 8768, 8769),
    (G, 52, 22, 22, true, 1250, 99, 22, 99, 99),
    (G, 42, 79, 79, true, 400, 100000, 52, 79021, 79022),
    (G, 46, 75, 11, true, 1, 1, 75, 1, 1),
    (G, 39, 82, 23, true, 870, 99, 81, 91, 92),
    (G, 40, 81, 81, true, 500, 7655715, 73, 6676887, 6676888),
    (G, 6, 115, 115, true, 25, 100000, 52, 82530, 82531),
    (G, 84, 37, 36, true, 500, 1, 8, 0, 1),
    (G, 62, 59, 6, true, 999, 4098827, 1, 165432, 165433),
    (G, 65, 56, 56, true, 1250, 100000, 55, 71781, 71782),
    (G, 16, 22, 22, true, 500, 1, 21, 0, 1),
    (G, 31, 20, 20, true, 0, 5170723, 2, 263542, 263543),
    (G, 56, 65, 65, true, 1546, 100000, 65, 100000, 100000),
    (G, 74, 47, 47, true, 1250, 4113962815, 1, 0, 1),
    (G, 33, 38, 38, true, 400, 1, 30, 0, 1),
];

/// The table, if memory for it wasn't refused.
pub(crate) fn table_of(alloc: Global, table: Rates) -> Result<Option<RateTable>, AllocError> {
    let table = match table {
        Q => RateTable::new(0, Vec::from_array(alloc, Q_RATES)?),
        Survived => RateTable::new(0, Vec::from_array(alloc, SURVIVED_RATES)?),
        Steep => RateTable::new(40, Vec::from_array(alloc, STEEP_RATES)?),
        G => RateTable::new(0, cubes(alloc)?),
    };
    Ok(table.ok())
}

fn cubes(alloc: Global) -> Result<Vec<u32>, AllocError> {
    let mut rates = Vec::new(alloc);
    for age in 0..121u64 {
        rates.push((600 * age * age * age).min(1_000_000_000) as u32)?;
    }
    Ok(rates)
}

/// The bounds, if the shape fits the table.
fn bounds(table: &RateTable, shape: &Shape, bp: u16, amount: u64, t: u8) -> Option<(u64, u64)> {
    let rate = table.rate(shape.age)?;
    let years = table.last_age() + 1 - shape.age;
    if shape.h < 2 || shape.h > shape.n || shape.n > years || rate > 500_000_000 || bp > 2000 {
        return None;
    }
    if amount > 10_000_000_000 || t > shape.n {
        return None;
    }
    let columns = columns(table, shape, bp);
    let premium = basis_premium(table, shape, bp, &columns);
    Some(reserve_bounds(&columns, &premium, amount, t))
}

fn found(alloc: Global, case: &Case) -> Result<Option<(u64, u64)>, AllocError> {
    let (table, age, n, h, matures, bp, amount, t, _, _) = *case;
    let Some(table) = table_of(alloc, table)? else {
        return Ok(None);
    };
    Ok(bounds(&table, &Shape { age, n, h, matures }, bp, amount, t))
}

#[test]
fn reserves_by_hand_and_at_random(rt: HostRuntime) -> Result<(), Fail> {
    assert_rows!(rt; cases in [BY_HAND, DRAWN], (row, case) in cases.iter().enumerate() =>
        found(rt.alloc(), case)?, Some((case.8, case.9)); "row {row} of {}", cases.len());
    Ok(())
}
