// Rows by select and ultimate tables. The reserves were worked out as fractions.
use crate::policy_rows::{
    Case, DAY_BEFORE, EARLY, ENDOWMENT, Expected, FLAT, LIMITED, OLD, ONE_YEAR, PAID_UP_TERM, TERM,
    THREE_YEARS, TWO_YEARS, all_hold,
};
use Expected::{Bounds, Word};
use Measure::{Mean, Terminal};
use NotValued::{BelowTable, PastTable};
use Plan::{Endowment, Term, Whole};
use Status::InForce;
use policy_types::{Plan, Status};
use policy_value::{Measure, NotValued};
use std::test::Fail;

const EARLY_AT_FIVE: &[u8] = b"1900-01-01,early.xml,500";

/// The select rate 0.01 at age 3, and 0.02, 0.03 and 0.04 at age 4.
const OLDER: &[u8] = b"1900-01-01,older.xml,0";

const SELECTED: &[Case] = &[
    Case {
        name: "endowment",
        file: EARLY,
        insured: ENDOWMENT,
        on: DAY_BEFORE,
        measure: Terminal,
        t: 0,
        worth: Bounds(0, 0),
    },
    Case {
        name: "endowment",
        file: EARLY,
        insured: ENDOWMENT,
        on: ONE_YEAR,
        measure: Terminal,
        t: 1,
        worth: Bounds(12_920, 12_921),
    },
    Case {
        name: "endowment",
        file: EARLY,
        insured: ENDOWMENT,
        on: TWO_YEARS,
        measure: Terminal,
        t: 2,
        worth: Bounds(54_168, 54_169),
    },
    Case {
        name: "endowment",
        file: EARLY,
        insured: ENDOWMENT,
        on: THREE_YEARS,
        measure: Terminal,
        t: 3,
        worth: Bounds(100_000, 100_000),
    },
    Case {
        name: "at 5 percent",
        file: EARLY_AT_FIVE,
        insured: ENDOWMENT,
        on: ONE_YEAR,
        measure: Terminal,
        t: 1,
        worth: Bounds(12_749, 12_750),
    },
    Case {
        name: "at the last select age",
        file: EARLY,
        insured: (Endowment, 1, 3, 100_000, 40_000, InForce),
        on: ONE_YEAR,
        measure: Terminal,
        t: 1,
        worth: Bounds(5_837, 5_838),
    },
    Case {
        name: "at the last select age",
        file: EARLY,
        insured: (Endowment, 1, 3, 100_000, 40_000, InForce),
        on: TWO_YEARS,
        measure: Terminal,
        t: 2,
        worth: Bounds(47_687, 47_688),
    },
    Case {
        name: "above the select ages",
        file: EARLY,
        insured: (Endowment, 2, 2, 100_000, 40_000, InForce),
        on: ONE_YEAR,
        measure: Terminal,
        t: 1,
        worth: Bounds(19_047, 19_048),
    },
    Case {
        name: "by the ultimate rates",
        file: FLAT,
        insured: (Endowment, 2, 2, 100_000, 40_000, InForce),
        on: ONE_YEAR,
        measure: Terminal,
        t: 1,
        worth: Bounds(19_047, 19_048),
    },
    Case {
        name: "whole life",
        file: EARLY,
        insured: (Whole, 0, 0, 100_000, 40_000, InForce),
        on: TWO_YEARS,
        measure: Terminal,
        t: 2,
        worth: Bounds(27_477, 27_478),
    },
    Case {
        name: "behind the select period",
        file: EARLY,
        insured: (Whole, 0, 0, 100_000, 40_000, InForce),
        on: THREE_YEARS,
        measure: Terminal,
        t: 3,
        worth: Bounds(48_807, 48_808),
    },
    Case {
        name: "limited premiums",
        file: EARLY,
        insured: LIMITED,
        on: ONE_YEAR,
        measure: Terminal,
        t: 1,
        worth: Bounds(34_073, 34_074),
    },
    Case {
        name: "term",
        file: EARLY,
        insured: TERM,
        on: TWO_YEARS,
        measure: Terminal,
        t: 2,
        worth: Bounds(7_894, 7_895),
    },
    Case {
        name: "one year of select rates",
        file: OLDER,
        insured: (Whole, 3, 0, 100_000, 40_000, InForce),
        on: ONE_YEAR,
        measure: Terminal,
        t: 1,
        worth: Bounds(33_104, 33_105),
    },
    Case {
        name: "mean of the first year",
        file: EARLY,
        insured: ENDOWMENT,
        on: DAY_BEFORE,
        measure: Mean,
        t: 0,
        worth: Bounds(15_097, 15_098),
    },
    Case {
        name: "mean of the second year",
        file: EARLY,
        insured: ENDOWMENT,
        on: ONE_YEAR,
        measure: Mean,
        t: 1,
        worth: Bounds(56_460, 56_461),
    },
    Case {
        name: "mean at the last select age",
        file: EARLY,
        insured: (Endowment, 1, 3, 100_000, 40_000, InForce),
        on: DAY_BEFORE,
        measure: Mean,
        t: 0,
        worth: Bounds(10_545, 10_546),
    },
    Case {
        name: "paid up",
        file: EARLY_AT_FIVE,
        insured: PAID_UP_TERM,
        on: ONE_YEAR,
        measure: Terminal,
        t: 1,
        worth: Bounds(8_979, 8_980),
    },
    Case {
        name: "below the select ages",
        file: OLDER,
        insured: (Whole, 2, 0, 100_000, 40_000, InForce),
        on: TWO_YEARS,
        measure: Terminal,
        t: 0,
        worth: Word(BelowTable),
    },
    // Its own rates go on for three years, but those of age 5 end at age 4.
    Case {
        name: "without a cap",
        file: OLDER,
        insured: OLD,
        on: TWO_YEARS,
        measure: Terminal,
        t: 0,
        worth: Word(PastTable),
    },
    Case {
        name: "without a cap",
        file: OLDER,
        insured: (Term, 4, 2, 100_000, 40_000, InForce),
        on: TWO_YEARS,
        measure: Terminal,
        t: 0,
        worth: Word(PastTable),
    },
    Case {
        name: "above the select ages",
        file: OLDER,
        insured: (Term, 5, 2, 100_000, 40_000, InForce),
        on: TWO_YEARS,
        measure: Terminal,
        t: 0,
        worth: Word(PastTable),
    },
    Case {
        name: "three years of two",
        file: OLDER,
        insured: (Term, 3, 3, 100_000, 40_000, InForce),
        on: TWO_YEARS,
        measure: Terminal,
        t: 0,
        worth: Word(PastTable),
    },
];

#[test]
fn rows_by_age_at_issue(rt: HostRuntime) -> Result<(), Fail> {
    all_hold(&rt, rt.alloc(), &[SELECTED])
}
