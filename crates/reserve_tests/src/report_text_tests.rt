ghost use Rattle.std.specs.Prelude.{IsTrue, length, ◌≤◌};
ghost use Rattle.report_text.specs.Block.{IsSummable, AreSummable};

use crate::policy_rows::{Expected, worth_of};
use Adequacy::{Close, Enough, Short};
use Expected::{Both, Bounds, Word};
use Measure::{Deficiency, Mean, Terminal};
use NotValued::{BelowTable, NoBasis, PastTable, RateHigh};
use Status::{Claimed, Expired, InForce, Lapsed, Matured, Settled};
use policy_types::Status;
use policy_value::{Adequacy, Measure, NotValued, Row, Rows, Worth};
use report_text::{TextParts, Totals, print_block, print_parts, print_row, print_total};
use std::alloc::Global;
use std::test::Fail;
use std::thread::Threads;
use test_rows::assert_rows;

/// 2021-01-01, in days since 1970-01-01.
const ON: i32 = 18_628;
/// 200,000,000.00, the greatest bound.
const GREATEST: u64 = 20_000_000_000;

const MOST_ROWS: u32 = 4_000_000;

fn is_summable(worth: Worth) -> bool
    ensures { IsTrue result → IsSummable worth }
{
    match worth {
        Worth::Bounds { lo, hi } => lo <= GREATEST && hi <= GREATEST,
        Worth::Both {
            lo,
            hi,
            min_lo,
            min_hi,
            test: _,
        } => lo <= GREATEST && hi <= GREATEST && min_lo <= GREATEST && min_hi <= GREATEST,
        Worth::Word(_) => true,
    }
}

fn are_summable(rows: &Rows) -> bool
    ensures bounded { IsTrue result → AreSummable rows.now }
    ensures few { IsTrue result → length rows.now ≤ 4000000 }
{
    let rows = rows.as_slice();
    rows.len() <= MOST_ROWS as usize && rows.iter().all(|row| is_summable(row.worth))
}

/// The same row so many times.
fn copies(alloc: Global, count: u32, row: Row) -> Result<Rows, Fail> {
    let mut rows = Vec::new(alloc);
    for _ in 0..count {
        rows.push(row)?;
    }
    Ok(Rows::new(rows))
}

/// The policy's number, its status, its years and its worth.
type Told = (u32, Status, u8, Expected);

// An endowment, a term and a limited life of 1000.00, each word and each status, and rows at their limits.
const ROWS: &[(Told, &str)] = &[
    (
        (7001, InForce, 1, Bounds(12_722, 12_723)),
        "row,7001,inforce,1,127.22,127.23\n",
    ),
    (
        (7001, InForce, 3, Bounds(100_000, 100_000)),
        "row,7001,inforce,3,1000.00,1000.00\n",
    ),
    (
        (7001, InForce, 1, Bounds(0, 1)),
        "row,7001,inforce,1,0.00,0.01\n",
    ),
    (
        (7001, InForce, 2, Bounds(2_777, 2_778)),
        "row,7001,inforce,2,27.77,27.78\n",
    ),
    (
        (7001, InForce, 1, Bounds(33_138, 33_139)),
        "row,7001,inforce,1,331.38,331.39\n",
    ),
    (
        (7001, InForce, 0, Word(PastTable)),
        "row,7001,inforce,0,pasttable\n",
    ),
    (
        (7001, InForce, 0, Word(NoBasis)),
        "row,7001,inforce,0,nobasis\n",
    ),
    (
        (7001, InForce, 0, Word(BelowTable)),
        "row,7001,inforce,0,belowtable\n",
    ),
    (
        (7001, InForce, 0, Word(RateHigh)),
        "row,7001,inforce,0,ratehigh\n",
    ),
    (
        (7001, Lapsed, 0, Bounds(0, 0)),
        "row,7001,lapsed,0,0.00,0.00\n",
    ),
    (
        (7001, Claimed, 0, Bounds(0, 0)),
        "row,7001,claimed,0,0.00,0.00\n",
    ),
    (
        (7001, Matured, 0, Bounds(0, 0)),
        "row,7001,matured,0,0.00,0.00\n",
    ),
    (
        (7001, Expired, 0, Bounds(0, 0)),
        "row,7001,expired,0,0.00,0.00\n",
    ),
    (
        (7001, Settled, 0, Bounds(0, 0)),
        "row,7001,settled,0,0.00,0.00\n",
    ),
    // and the minimum reserve: a premium that is short, one that is enough, one for which the bounds don't decide
    (
        (
            7001,
            InForce,
            1,
            Both(12_722, 12_723, 28_000, 28_000, Short),
        ),
        "row,7001,inforce,1,127.22,127.23,280.00,280.00,short\n",
    ),
    (
        (
            7001,
            InForce,
            1,
            Both(12_722, 12_723, 12_722, 12_723, Enough),
        ),
        "row,7001,inforce,1,127.22,127.23,127.22,127.23,enough\n",
    ),
    (
        (
            7001,
            InForce,
            131,
            Both(GREATEST, GREATEST, GREATEST, GREATEST, Close),
        ),
        "row,7001,inforce,131,200000000.00,200000000.00,200000000.00,200000000.00,close\n",
    ),
    (
        (u32::MAX, InForce, 131, Bounds(GREATEST, GREATEST)),
        "row,4294967295,inforce,131,200000000.00,200000000.00\n",
    ),
];

fn row_of(told: Told) -> Row {
    let (id, status, t, expected) = told;
    Row {
        id,
        status,
        t,
        worth: worth_of(expected),
    }
}

fn is_printed(alloc: Global, told: Told, text: &str) -> Result<bool, Fail> {
    let row = row_of(told);
    if !is_summable(row.worth) {
        return Err("a summable row".into());
    }
    match print_row(alloc, &row) {
        Ok(printed) => Ok(printed.as_slice() == text.as_bytes()),
        Err(_) => Err("memory for a row".into()),
    }
}

#[test]
fn rows(rt: HostRuntime) -> Result<(), Fail> {
    assert_rows!(rt; (told, text) in ROWS => is_printed(rt.alloc(), *told, text)?; "{text}");
    Ok(())
}

// The totals of none, of 300 policies, of policies without a value, and at the limits.
const TOTALS: &[(u32, Told, Measure, &str)] = &[
    (
        0,
        (7001, InForce, 1, Bounds(12_722, 12_723)),
        Terminal,
        "total,0.00,0.00,0\n",
    ),
    (
        1,
        (7001, InForce, 0, Bounds(0, 0)),
        Terminal,
        "total,0.00,0.00,0\n",
    ),
    (
        1,
        (7001, InForce, 0, Word(PastTable)),
        Terminal,
        "total,0.00,0.00,1\n",
    ),
    (
        300,
        (7001, InForce, 1, Bounds(12_722, 12_723)),
        Terminal,
        "total,38166.00,38169.00,0\n",
    ),
    (
        MOST_ROWS,
        (7001, InForce, 131, Bounds(GREATEST - 1, GREATEST)),
        Terminal,
        "total,799999999960000.00,800000000000000.00,0\n",
    ),
    (
        MOST_ROWS,
        (7001, InForce, 0, Word(NoBasis)),
        Terminal,
        "total,0.00,0.00,4000000\n",
    ),
    // by the measure of deficiency, with the minimum reserves, to which rows without bounds add nothing
    (
        1,
        (7001, InForce, 0, Word(PastTable)),
        Deficiency,
        "total,0.00,0.00,0.00,0.00,1\n",
    ),
    (
        1,
        (7001, InForce, 0, Word(PastTable)),
        Mean,
        "total,0.00,0.00,1\n",
    ),
    (
        300,
        (
            7001,
            InForce,
            1,
            Both(12_722, 12_723, 28_000, 28_001, Short),
        ),
        Deficiency,
        "total,38166.00,38169.00,84000.00,84003.00,0\n",
    ),
    (
        MOST_ROWS,
        (
            7001,
            InForce,
            131,
            Both(0, 1, GREATEST - 1, GREATEST, Short),
        ),
        Deficiency,
        "total,0.00,40000.00,799999999960000.00,800000000000000.00,0\n",
    ),
];

fn is_total(
    alloc: Global,
    count: u32,
    told: Told,
    measure: Measure,
    text: &str,
) -> Result<bool, Fail> {
    let rows = copies(alloc, count, row_of(told))?;
    if !are_summable(&rows) {
        return Err("summable rows".into());
    }
    match print_total(alloc, &rows, measure) {
        Ok(printed) => Ok(printed.as_slice() == text.as_bytes()),
        Err(_) => Err("memory for a total".into()),
    }
}

#[test]
fn totals(rt: HostRuntime) -> Result<(), Fail> {
    assert_rows!(rt; (count, told, measure, text) in TOTALS =>
        is_total(rt.alloc(), *count, *told, *measure, text)?; "{text}");
    Ok(())
}

#[test]
fn totals_of_rows_without_a_minimum(rt: HostRuntime) -> Result<(), Fail> {
    let rows = copies(
        rt.alloc(),
        300,
        row_of((7001, InForce, 1, Bounds(12_722, 12_723))),
    )?;
    assert!(rt; are_summable(&rows));
    let expected = Totals {
        lower: 3_816_600,
        upper: 3_816_900,
        lower_minimum: 3_816_600,
        upper_minimum: 3_816_900,
        unvalued: 0,
    };
    assert!(rt; Totals::of(&rows) == expected);
    Ok(())
}

/// A lane, a day, a position, a measure, rows, and their text.
struct Valued {
    lane: u8,
    on: i32,
    position: u32,
    measure: Measure,
    rows: &'static [Told],
    text: &'static str,
}

// Whole valuations: of no policy, of one, of some of which one has no value, and by each measure.
const BLOCKS: &[Valued] = &[
    Valued {
        lane: 0,
        on: ON,
        position: 0,
        measure: Terminal,
        rows: &[],
        text: "0,value,2021-01-01,0,0\ntotal,0.00,0.00,0\n",
    },
    Valued {
        lane: 1,
        on: ON,
        position: 1,
        measure: Terminal,
        rows: &[(7001, InForce, 1, Bounds(12_722, 12_723))],
        text: "1,value,2021-01-01,1,1\nrow,7001,inforce,1,127.22,127.23\ntotal,127.22,127.23,0\n",
    },
    Valued {
        lane: 8,
        on: 84_005,
        position: 4_000_000,
        measure: Terminal,
        rows: &[
            (7001, InForce, 1, Bounds(12_722, 12_723)),
            (7002, InForce, 0, Word(PastTable)),
            (7001, InForce, 1, Bounds(12_722, 12_723)),
        ],
        text: "8,value,2199-12-31,4000000,3\nrow,7001,inforce,1,127.22,127.23\nrow,7002,inforce,0,pasttable\n\
            row,7001,inforce,1,127.22,127.23\ntotal,254.44,254.46,1\n",
    },
    Valued {
        lane: 0,
        on: ON - 1,
        position: 1,
        measure: Mean,
        rows: &[(7001, InForce, 0, Bounds(17_086, 17_087))],
        text: "0,value,2020-12-31,1,1,mean\nrow,7001,inforce,0,170.86,170.87\ntotal,170.86,170.87,0\n",
    },
    Valued {
        lane: 0,
        on: ON,
        position: 1,
        measure: Deficiency,
        rows: &[(
            7001,
            InForce,
            1,
            Both(12_722, 12_723, 28_000, 28_000, Short),
        )],
        text: "0,value,2021-01-01,1,1,deficiency\nrow,7001,inforce,1,127.22,127.23,280.00,280.00,short\n\
            total,127.22,127.23,280.00,280.00,0\n",
    },
    Valued {
        lane: 0,
        on: ON,
        position: 0,
        measure: Deficiency,
        rows: &[],
        text: "0,value,2021-01-01,0,0,deficiency\ntotal,0.00,0.00,0.00,0.00,0\n",
    },
];

fn rows_of(alloc: Global, rows: &[Told]) -> Result<Rows, Fail> {
    let mut made = Vec::new(alloc);
    for told in rows {
        made.push(row_of(*told))?;
    }
    Ok(Rows::new(made))
}

fn is_block(alloc: Global, valued: &Valued) -> Result<bool, Fail> {
    let rows = rows_of(alloc, valued.rows)?;
    if !are_summable(&rows) || valued.on < -25_567 || valued.on > 84_005 {
        return Err("summable rows on a day".into());
    }
    let (lane, on, position) = (valued.lane, valued.on, valued.position);
    match print_block(alloc, lane, on, position, valued.measure, &rows) {
        Ok(printed) => Ok(printed.as_slice() == valued.text.as_bytes()),
        Err(_) => Err("memory for a block".into()),
    }
}

#[test]
fn blocks(rt: HostRuntime) -> Result<(), Fail> {
    assert_rows!(rt; (number, valued) in BLOCKS.iter().enumerate() =>
        is_block(rt.alloc(), valued)?; "block {number}");
    Ok(())
}

// A long valuation, by its length, its first and its last lines. The longest, of 4,000,000 rows, is printed by the
// built program in `tests/program/test_hostile.py`: `rt try` takes more than a minute for it.
#[test]
fn many_policies(rt: HostRuntime) -> Result<(), Fail> {
    let row = row_of((7001, InForce, 1, Bounds(GREATEST, GREATEST)));
    let rows = copies(rt.alloc(), 100_000, row)?;
    assert!(rt; are_summable(&rows));
    let Ok(text) = print_block(rt.alloc(), 8, -25_567, MOST_ROWS, Measure::Terminal, &rows) else {
        return Err("memory for a long block".into());
    };
    let start = "8,value,1900-01-01,4000000,100000\nrow,7001,inforce,1,200000000.00,200000000.00\n";
    let end =
        "row,7001,inforce,1,200000000.00,200000000.00\ntotal,20000000000000.00,20000000000000.00,0\n";
    assert_eq!(rt; text.as_slice().len(), 34 + 100_000 * 45 + 44);
    assert!(rt; text.as_slice().starts_with(start.as_bytes()));
    assert!(rt; text.as_slice().ends_with(end.as_bytes()));
    Ok(())
}

// So many rows, by so many workers, and the parts of their text. One worker for each 8,192 rows makes a part, and there
// are the heading and the total; one alone makes the whole.
const SHARED: &[(u32, u8, usize)] = &[
    (0, 4, 1),
    (16_383, 4, 1),
    (16_384, 1, 1),
    (16_384, 64, 4),
    (30_000, 2, 4),
    (30_001, 4, 5),
];

// Rows with rising numbers.
fn numbered(alloc: Global, count: u32) -> Result<Rows, Fail> {
    let mut rows = Vec::new(alloc);
    for id in 0..count {
        let mut row = row_of((7001, InForce, 1, Bounds(12_722, 12_723)));
        row.id = id;
        rows.push(row)?;
    }
    Ok(Rows::new(rows))
}

fn are_parts_of(text: &[u8], parts: &TextParts) -> bool {
    let mut left = text;
    for part in parts.as_slice() {
        let part = part.as_slice();
        if !left.starts_with(part) {
            return false;
        }
        left = &left[part.len()..];
    }
    left.is_empty()
}

fn is_shared<R: Threads + Sync>(
    rt: &R,
    alloc: Global,
    case: (u32, u8, usize),
) -> Result<bool, Fail> {
    let (count, workers, many) = case;
    let rows = numbered(alloc, count)?;
    if !are_summable(&rows) || workers < 1 || workers > 64 {
        return Err("summable rows and up to 64 workers".into());
    }
    let Ok(text) = print_block(alloc, 8, ON, 9, Measure::Mean, &rows) else {
        return Err("memory for a block".into());
    };
    match print_parts(rt, alloc, 8, ON, 9, Measure::Mean, &rows, workers) {
        Ok(parts) => Ok(parts.as_slice().len() == many && are_parts_of(text.as_slice(), &parts)),
        Err(_) => Err("memory for a block in parts".into()),
    }
}

#[test]
fn blocks_by_any_number_of_workers(rt: HostRuntime) -> Result<(), Fail> {
    assert_rows!(rt; (number, case) in SHARED.iter().enumerate() =>
        is_shared(&rt, rt.alloc(), *case)?; "block {number}");
    Ok(())
}
