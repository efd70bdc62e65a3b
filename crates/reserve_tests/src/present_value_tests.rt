use crate::crvm_reserve_tests::{Rates, table_of};
use present_value::{Columns, Pair, columns};
use rate_table::Shape;
use std::alloc::{AllocError, Global};
use std::test::Fail;
use test_rows::assert_rows;

/// The columns of a shape by a table of five ages, with the rates 0.1, 0.2, 0.25, 0.5 and 1.
fn values(alloc: Global, shape: &Shape, bp: u16) -> Result<Option<Columns>, AllocError> {
    let Some(table) = table_of(alloc, Rates::Q)? else {
        return Ok(None);
    };
    let Some(_) = table.rate(shape.age) else {
        return Ok(None);
    };
    let years = table.last_age() + 1 - shape.age;
    if shape.h < 1 || shape.h > shape.n || shape.n > years || bp > 2000 {
        return Ok(None);
    }
    Ok(Some(columns(&table, shape, bp)))
}

/// A shape and basis points, and the values of the benefits and of the premiums.
struct Case {
    shape: Shape,
    bp: u16,
    benefits: &'static [(u64, u64)],
    premiums: &'static [(u64, u64)],
}

// Each pair was computed outside this program in whole numbers of any length, and compared there with the exact
// sums. The endowment's values at 20 percent are 47/72, 35/48 and 5/6, and those of its premiums 25/12 and 13/8.
const CASES: &[Case] = &[
    Case {
        shape: Shape {
            age: 1,
            n: 3,
            h: 3,
            matures: true,
        },
        bp: 2000,
        benefits: &[
            (6_527_777_777_777_777, 6_527_777_777_777_779),
            (7_291_666_666_666_666, 7_291_666_666_666_668),
            (8_333_333_333_333_333, 8_333_333_333_333_334),
            (10_000_000_000_000_000, 10_000_000_000_000_000),
            (0, 0),
        ],
        premiums: &[
            (20_833_333_333_333_333, 20_833_333_333_333_334),
            (16_250_000_000_000_000, 16_250_000_000_000_000),
            (10_000_000_000_000_000, 10_000_000_000_000_000),
            (0, 0),
        ],
    },
    Case {
        shape: Shape {
            age: 0,
            n: 3,
            h: 2,
            matures: false,
        },
        bp: 500,
        benefits: &[
            (4_139_941_690_962_097, 4_139_941_690_962_100),
            (3_718_820_861_678_003, 3_718_820_861_678_005),
            (2_380_952_380_952_380, 2_380_952_380_952_381),
            (0, 0),
        ],
        premiums: &[],
    },
];

fn begins(column: &[Pair], expected: &[(u64, u64)]) -> bool {
    for (pair, expected) in column.iter().zip(expected) {
        if (pair.lo, pair.hi) != *expected {
            return false;
        }
    }
    expected.len() <= column.len()
}

fn holds(alloc: Global, case: &Case) -> Result<bool, AllocError> {
    let Some(found) = values(alloc, &case.shape, case.bp)? else {
        return Ok(false);
    };
    Ok(
        (found.n, found.h) == (case.shape.n, case.shape.h)
            && begins(&found.ben, case.benefits)
            && begins(&found.ann, case.premiums),
    )
}

#[test]
fn values_by_year(rt: HostRuntime) -> Result<(), Fail> {
    assert_rows!(rt; (at, case) in CASES.iter().enumerate() => holds(rt.alloc(), case)?; "case {at}");
    Ok(())
}
