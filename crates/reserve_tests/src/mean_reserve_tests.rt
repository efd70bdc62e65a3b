// Mean reserves, in force and paid up.
use crate::crvm_reserve_tests::{Rates, table_of};
use Paid::{InForce, PaidUp};
use Rates::{G, Q, Steep, Survived};
use crvm_reserve::{basis_premium, mean_bounds, paid_up_mean_bounds};
use present_value::columns;
use rate_table::{RateTable, Shape};
use std::alloc::{AllocError, Global};
use std::test::Fail;
use test_rows::assert_rows;

/// Whether premiums are still due.
#[derive(Clone, Copy, PartialEq, Eq)]
enum Paid {
    InForce,
    PaidUp,
}

/// Table, age, years of cover, years of premiums, whether it matures, basis points, amount, year, whether it is paid
/// up, and the lower and the upper bound.
type Case = (Rates, u8, u8, u8, bool, u16, u64, u8, Paid, u64, u64);

/// Cases that an actuary can follow by hand.
const BY_HAND: &[Case] = &[
    (Q, 0, 3, 3, true, 0, 100000, 0, InForce, 17086, 17087),
    (Q, 0, 3, 3, true, 0, 100000, 1, InForce, 56361, 56362),
    (Q, 0, 3, 3, true, 0, 100000, 2, InForce, 99999, 100001),
    (Q, 0, 3, 3, true, 0, 100000, 3, InForce, 100000, 100000),
    (Q, 0, 3, 3, false, 500, 100000, 0, InForce, 4761, 4762),
    (Q, 0, 3, 3, false, 500, 100000, 1, InForce, 11904, 11905),
    (Q, 0, 3, 3, false, 500, 100000, 2, InForce, 11904, 11905),
    (Q, 0, 3, 3, false, 500, 100000, 3, InForce, 0, 0),
    (Q, 0, 3, 3, false, 500, 100000, 0, PaidUp, 39293, 39294),
    (Q, 0, 3, 3, false, 500, 100000, 1, PaidUp, 30498, 30499),
    (Q, 0, 3, 3, false, 500, 100000, 2, PaidUp, 11904, 11905),
    (Q, 0, 3, 3, false, 500, 100000, 3, PaidUp, 0, 0),
    (Q, 0, 5, 2, true, 0, 100000, 0, InForce, 36481, 36482),
    (Q, 0, 5, 2, true, 0, 100000, 1, InForce, 99999, 100001),
    (Q, 0, 5, 2, true, 0, 100000, 2, InForce, 100000, 100000),
    (Q, 0, 5, 2, true, 0, 100000, 3, InForce, 100000, 100000),
    (Q, 0, 5, 2, true, 0, 100000, 4, InForce, 100000, 100000),
    (Q, 0, 5, 2, true, 0, 100000, 5, InForce, 100000, 100000),
    // the first year's premium is above the level one
    (Steep, 40, 3, 3, true, 0, 100000, 0, InForce, 27438, 27439),
    (Steep, 40, 3, 3, true, 0, 100000, 3, InForce, 100000, 100000),
    (
        Survived, 0, 3, 3, true, 0, 100000, 2, InForce, 99999, 100001,
    ),
    (
        Survived, 0, 3, 3, true, 0, 100000, 3, InForce, 100000, 100000,
    ),
];

/// Shapes of each plan drawn at random, many around the last premium and the end of cover. Their bounds were computed
/// outside this program, by the rounded recursion in whole numbers of any length, and each was compared there with the
/// mean reserve as an exact fraction, found by the sums over the years: the two enclose it.
const DRAWN: &[Case] = &[
    (G, 60, 50, 50, false, 25, 99, 0, InForce, 6, 7),
    (
        G, 29, 92, 35, true, 275, 2562149, 34, PaidUp, 2224667, 2224668,
    ),
    (G, 46, 75, 75, true, 275, 1, 74, PaidUp, 0, 1),
    (
        G, 48, 7, 7, false, 1250, 8359838, 6, InForce, 351032, 351033,
    ),
    (
        G, 61, 18, 18, false, 350, 6609340, 17, InForce, 909123, 909124,
    ),
    (G, 39, 82, 82, true, 2000, 99, 81, InForce, 90, 91),
    (G, 85, 36, 20, true, 350, 99, 21, InForce, 94, 95),
    (G, 71, 19, 19, false, 202, 99, 1, InForce, 13, 14),
    (
        G, 60, 33, 33, false, 1250, 8990251047, 0, InForce, 517838460, 517838461,
    ),
    (G, 17, 104, 3, true, 999, 1, 104, InForce, 1, 1),
    (G, 22, 10, 10, false, 2000, 99, 1, InForce, 0, 1),
    (Q, 2, 3, 2, true, 275, 100000, 2, PaidUp, 98661, 98662),
    (
        G,
        24,
        46,
        46,
        true,
        2000,
        10000000000,
        45,
        PaidUp,
        9166666666,
        9166666667,
    ),
    (
        G, 39, 82, 82, true, 350, 5072634, 82, InForce, 5072634, 5072634,
    ),
    (G, 55, 15, 15, true, 0, 99, 14, InForce, 98, 100),
    (
        G, 14, 107, 107, true, 275, 9045109, 107, InForce, 9045109, 9045109,
    ),
    (G, 4, 32, 32, false, 350, 1, 32, InForce, 0, 0),
    (G, 38, 83, 83, true, 350, 99, 1, InForce, 4, 5),
    (Q, 1, 4, 4, false, 275, 100000, 4, InForce, 0, 0),
    (
        G,
        50,
        71,
        71,
        true,
        275,
        10000000000,
        0,
        InForce,
        364963503,
        364963504,
    ),
    (
        G,
        87,
        19,
        19,
        true,
        1250,
        10000000000,
        19,
        PaidUp,
        10000000000,
        10000000000,
    ),
    (G, 39, 53, 53, true, 500, 1, 31, InForce, 0, 1),
    (G, 61, 59, 59, false, 1390, 1, 58, PaidUp, 0, 1),
    (Q, 1, 4, 4, true, 275, 8012713, 4, InForce, 8012713, 8012713),
    (G, 17, 29, 29, true, 1250, 5321390, 1, InForce, 60976, 60977),
    (G, 90, 31, 31, true, 256, 100000, 30, InForce, 98751, 98752),
    (G, 40, 40, 40, true, 901, 99, 40, InForce, 99, 99),
    (G, 14, 47, 47, false, 350, 99, 0, InForce, 0, 1),
    (Q, 1, 4, 3, true, 500, 100000, 3, InForce, 97619, 97620),
    (G, 70, 51, 51, false, 1, 100000, 51, InForce, 0, 0),
    (
        Q,
        1,
        4,
        4,
        true,
        1997,
        10000000000,
        1,
        PaidUp,
        7251379210,
        7251379211,
    ),
    (
        G, 60, 61, 61, true, 999, 6035055703, 60, InForce, 5760984394, 5760984395,
    ),
    (G, 25, 96, 23, true, 999, 100000, 22, InForce, 46135, 46136),
    (G, 75, 46, 24, true, 25, 99, 0, PaidUp, 98, 99),
    (G, 44, 77, 77, true, 1, 100000, 0, InForce, 2555, 2556),
    (
        G,
        12,
        8,
        8,
        false,
        25,
        10000000000,
        7,
        PaidUp,
        20525685,
        20525686,
    ),
    (
        G, 50, 57, 57, true, 1, 2052690099, 56, InForce, 2052587474, 2052587475,
    ),
    (
        G,
        91,
        30,
        30,
        true,
        350,
        10000000000,
        0,
        InForce,
        2184263768,
        2184263769,
    ),
    (G, 84, 37, 37, true, 275, 100000, 36, InForce, 98661, 98662),
    (
        G, 82, 19, 19, true, 999, 6755552, 0, PaidUp, 5268718, 5268719,
    ),
    (Q, 1, 4, 3, true, 1250, 1, 0, InForce, 0, 1),
    (G, 50, 7, 7, true, 275, 99, 6, PaidUp, 97, 98),
    (Q, 2, 3, 3, true, 350, 5597269, 0, InForce, 675998, 675999),
    (Q, 0, 5, 2, true, 1250, 1, 4, InForce, 0, 1),
    (
        Q, 1, 3, 3, true, 25, 5950933970, 0, InForce, 986530907, 986530908,
    ),
    (
        G, 5, 37, 37, true, 275, 7739094860, 0, PaidUp, 3174373302, 3174373303,
    ),
    (G, 19, 9, 9, true, 1250, 1, 8, InForce, 0, 1),
    (
        G, 41, 54, 54, false, 400, 1824397, 53, PaidUp, 437110, 437111,
    ),
    (
        G,
        87,
        34,
        34,
        true,
        1250,
        10000000000,
        33,
        InForce,
        9444444444,
        9444444445,
    ),
    (G, 7, 114, 11, true, 2000, 1, 11, InForce, 0, 1),
    (Q, 1, 4, 4, true, 1, 99, 0, InForce, 9, 10),
    (
        G,
        14,
        107,
        10,
        true,
        275,
        10000000000,
        0,
        InForce,
        229418182,
        229418183,
    ),
    (G, 85, 27, 27, true, 350, 99, 26, PaidUp, 97, 98),
    (
        G, 73, 47, 47, true, 350, 4034147719, 46, InForce, 3965937491, 3965937492,
    ),
    (
        Q, 1, 3, 3, true, 1250, 9625931309, 1, InForce, 4610651104, 4610651105,
    ),
    (G, 9, 58, 58, true, 400, 7240462, 0, InForce, 1522, 1523),
];

/// The bounds, if the shape fits the table.
fn bounds(
    table: &RateTable,
    shape: &Shape,
    bp: u16,
    amount: u64,
    t: u8,
    paid: Paid,
) -> Option<(u64, u64)> {
    let rate = table.rate(shape.age)?;
    let years = table.last_age() + 1 - shape.age;
    if shape.h < 2 || shape.h > shape.n || shape.n > years || rate > 500_000_000 || bp > 2000 {
        return None;
    }
    if amount > 10_000_000_000 || t > shape.n {
        return None;
    }
    let columns = columns(table, shape, bp);
    let premium = basis_premium(table, shape, bp, &columns);
    match paid {
        InForce => Some(mean_bounds(&columns, &premium, amount, t)),
        PaidUp => Some(paid_up_mean_bounds(&columns, amount, t)),
    }
}

fn found(alloc: Global, case: &Case) -> Result<Option<(u64, u64)>, AllocError> {
    let (table, age, n, h, matures, bp, amount, t, paid, _, _) = *case;
    let Some(table) = table_of(alloc, table)? else {
        return Ok(None);
    };
    Ok(bounds(&table, &Shape { age, n, h, matures }, bp, amount, t, paid))
}

#[test]
fn mean_reserves_by_hand_and_at_random(rt: HostRuntime) -> Result<(), Fail> {
    assert_rows!(rt; cases in [BY_HAND, DRAWN], (row, case) in cases.iter().enumerate() =>
        found(rt.alloc(), case)?, Some((case.9, case.10)); "row {row} of {}", cases.len());
    Ok(())
}
