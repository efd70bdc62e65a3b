ghost use Rattle.std.specs.Prelude.{IsTrue, All};
ghost use Rattle.cash_projection.specs.Text.{IsTellable};

// The text of projections.
use crate::policy_rows::DAY_BEFORE;
use cash_projection::{Projection, Year, Years, print_projection};
use present_value::Pair;
use std::alloc::Global;
use std::test::Fail;
use test_rows::assert_rows;

/// 10^17 cents, the greatest bound that is printed.
const GREATEST: u64 = 100_000_000_000_000_000;

fn is_tellable(year: &Year) -> bool
    ensures { IsTrue result → IsTellable year.now }
{
    let year = *year;
    year.premium.lo <= GREATEST
        && year.premium.hi <= GREATEST
        && year.death.lo <= GREATEST
        && year.death.hi <= GREATEST
        && year.maturity.lo <= GREATEST
        && year.maturity.hi <= GREATEST
}

fn are_tellable(years: &Years) -> bool
    ensures { IsTrue result → All IsTellable years.now }
{
    years.as_slice().iter().all(|year| is_tellable(year))
}

/// The year of six bounds.
fn year_of(bounds: [u64; 6]) -> Year {
    let [
        premium_lo,
        premium_hi,
        death_lo,
        death_hi,
        maturity_lo,
        maturity_hi,
    ] = bounds;
    Year {
        premium: Pair {
            lo: premium_lo,
            hi: premium_hi,
        },
        death: Pair {
            lo: death_lo,
            hi: death_hi,
        },
        maturity: Pair {
            lo: maturity_lo,
            hi: maturity_hi,
        },
    }
}

/// A projection, and its text.
struct Told {
    position: u32,
    on: i32,
    policies: u32,
    unvalued: u32,
    years: &'static [[u64; 6]],
    text: &'static str,
}

// The first issue, no policy, and the greatest of everything.
const TOLD: &[Told] = &[
    Told {
        position: 1,
        on: DAY_BEFORE,
        policies: 1,
        unvalued: 0,
        years: &[
            [40_000, 40_000, 10_000, 10_000, 0, 0],
            [36_000, 36_000, 18_000, 18_000, 0, 0],
            [28_800, 28_800, 18_000, 18_000, 54_000, 54_000],
        ],
        text: "project,2020-12-31,1,1,3\nyear,0,400.00,400.00,100.00,100.00,0.00,0.00\n\
            year,1,360.00,360.00,180.00,180.00,0.00,0.00\nyear,2,288.00,288.00,180.00,180.00,540.00,540.00\n\
            unvalued,0\n",
    },
    Told {
        position: 0,
        on: 84_005,
        policies: 0,
        unvalued: 0,
        years: &[[0; 6]],
        text: "project,2199-12-31,0,0,1\nyear,0,0.00,0.00,0.00,0.00,0.00,0.00\nunvalued,0\n",
    },
    Told {
        position: u32::MAX,
        on: -25_567,
        policies: 4_000_000,
        unvalued: 4_000_000,
        years: &[[
            GREATEST - 1,
            GREATEST,
            GREATEST - 1,
            GREATEST,
            GREATEST - 1,
            GREATEST,
        ]],
        text: "project,1900-01-01,4294967295,4000000,1\nyear,0,999999999999999.99,1000000000000000.00,\
            999999999999999.99,1000000000000000.00,999999999999999.99,1000000000000000.00\nunvalued,4000000\n",
    },
];

fn years_of(alloc: Global, years: &[[u64; 6]]) -> Result<Years, Fail> {
    let mut made = Vec::new(alloc);
    for bounds in years {
        made.push(year_of(*bounds))?;
    }
    Ok(Years::new(made))
}

// Whether this is its text.
fn holds(alloc: Global, told: &Told) -> Result<bool, Fail> {
    let years = years_of(alloc, told.years)?;
    if years.as_slice().len() > 131 || !are_tellable(&years) {
        return Err("tellable years".into());
    }
    if told.on < -25_567 || told.on > 84_005 {
        return Err("a day".into());
    }
    let projection = Projection {
        position: told.position,
        on: told.on,
        policies: told.policies,
        unvalued: told.unvalued,
        years,
    };
    match print_projection(alloc, &projection) {
        Ok(text) => Ok(text.as_slice() == told.text.as_bytes()),
        Err(_) => Err("memory for a projection".into()),
    }
}

#[test]
fn projections_as_text(rt: HostRuntime) -> Result<(), Fail> {
    assert_rows!(rt; (row, told) in TOLD.iter().enumerate() => holds(rt.alloc(), told)?; "row {row}");
    Ok(())
}
