// Rows of a valuation: reserves, in force and paid up.
use crate::policy_rows::{
    AT_FIVE, Case, DAY_BEFORE, ENDOWMENT, Expected, FLAT, LIMITED, ONE_YEAR, PAID_UP,
    PAID_UP_LIMITED, PAID_UP_TERM, TERM, THREE_YEARS, TWO_YEARS, all_hold,
};
use Expected::Bounds;
use Measure::Terminal;
use Plan::Whole;
use Status::InForce;
use policy_types::{Plan, Status};
use policy_value::Measure;
use std::test::Fail;

/// The table changes after the day of issue.
const CHANGED: &[u8] = b"1900-01-01,q.xml,0\n2020-01-02,q.xml,500";

const FROM_THE_DAY: &[u8] = b"1900-01-01,q.xml,0\n2020-01-01,q.xml,500";

const RESERVES: &[Case] = &[
    Case {
        name: "endowment",
        file: FLAT,
        insured: ENDOWMENT,
        on: DAY_BEFORE,
        measure: Terminal,
        t: 0,
        worth: Bounds(0, 0),
    },
    Case {
        name: "endowment",
        file: FLAT,
        insured: ENDOWMENT,
        on: ONE_YEAR,
        measure: Terminal,
        t: 1,
        worth: Bounds(12_722, 12_723),
    },
    Case {
        name: "endowment",
        file: FLAT,
        insured: ENDOWMENT,
        on: TWO_YEARS,
        measure: Terminal,
        t: 2,
        worth: Bounds(51_512, 51_513),
    },
    Case {
        name: "endowment",
        file: FLAT,
        insured: ENDOWMENT,
        on: THREE_YEARS,
        measure: Terminal,
        t: 3,
        worth: Bounds(100_000, 100_000),
    },
    Case {
        name: "endowment, after its end",
        file: FLAT,
        insured: ENDOWMENT,
        on: 84_005,
        measure: Terminal,
        t: 3,
        worth: Bounds(100_000, 100_000),
    },
    Case {
        name: "term",
        file: FLAT,
        insured: TERM,
        on: ONE_YEAR,
        measure: Terminal,
        t: 1,
        worth: Bounds(0, 1),
    },
    Case {
        name: "term",
        file: FLAT,
        insured: TERM,
        on: TWO_YEARS,
        measure: Terminal,
        t: 2,
        worth: Bounds(2_777, 2_778),
    },
    Case {
        name: "term",
        file: FLAT,
        insured: TERM,
        on: THREE_YEARS,
        measure: Terminal,
        t: 3,
        worth: Bounds(0, 0),
    },
    Case {
        name: "term at 5 percent",
        file: AT_FIVE,
        insured: TERM,
        on: ONE_YEAR,
        measure: Terminal,
        t: 1,
        worth: Bounds(0, 1),
    },
    Case {
        name: "term at 5 percent",
        file: AT_FIVE,
        insured: TERM,
        on: TWO_YEARS,
        measure: Terminal,
        t: 2,
        worth: Bounds(2_702, 2_703),
    },
    Case {
        name: "basis of the day",
        file: FROM_THE_DAY,
        insured: TERM,
        on: TWO_YEARS,
        measure: Terminal,
        t: 2,
        worth: Bounds(2_702, 2_703),
    },
    Case {
        name: "basis of later issues",
        file: CHANGED,
        insured: TERM,
        on: TWO_YEARS,
        measure: Terminal,
        t: 2,
        worth: Bounds(2_777, 2_778),
    },
    Case {
        name: "limited",
        file: FLAT,
        insured: LIMITED,
        on: ONE_YEAR,
        measure: Terminal,
        t: 1,
        worth: Bounds(33_138, 33_139),
    },
    Case {
        name: "limited",
        file: FLAT,
        insured: LIMITED,
        on: TWO_YEARS,
        measure: Terminal,
        t: 2,
        worth: Bounds(100_000, 100_000),
    },
    Case {
        name: "whole at age 3",
        file: FLAT,
        insured: (Whole, 3, 0, 100_000, 40_000, InForce),
        on: ONE_YEAR,
        measure: Terminal,
        t: 1,
        worth: Bounds(0, 0),
    },
    Case {
        name: "whole at age 3",
        file: FLAT,
        insured: (Whole, 3, 0, 100_000, 40_000, InForce),
        on: TWO_YEARS,
        measure: Terminal,
        t: 2,
        worth: Bounds(100_000, 100_000),
    },
];

// A paid-up policy of 300.00 has the benefits alone, by hand: at 5 percent 300 * (0.2 / 1.05 + 0.2 / 1.1025) = 49200
// / 441.
const PAID_UP_RESERVES: &[Case] = &[
    Case {
        name: "paid up: endowment",
        file: FLAT,
        insured: PAID_UP,
        on: DAY_BEFORE,
        measure: Terminal,
        t: 0,
        worth: Bounds(30_000, 30_000),
    },
    Case {
        name: "paid up: endowment",
        file: FLAT,
        insured: PAID_UP,
        on: ONE_YEAR,
        measure: Terminal,
        t: 1,
        worth: Bounds(30_000, 30_000),
    },
    Case {
        name: "paid up: endowment, after its end",
        file: FLAT,
        insured: PAID_UP,
        on: 84_005,
        measure: Terminal,
        t: 3,
        worth: Bounds(30_000, 30_000),
    },
    Case {
        name: "paid up: term",
        file: FLAT,
        insured: PAID_UP_TERM,
        on: ONE_YEAR,
        measure: Terminal,
        t: 1,
        worth: Bounds(12_000, 12_000),
    },
    Case {
        name: "paid up: term at 5 percent",
        file: AT_FIVE,
        insured: PAID_UP_TERM,
        on: ONE_YEAR,
        measure: Terminal,
        t: 1,
        worth: Bounds(11_156, 11_157),
    },
    Case {
        name: "paid up: term, at its end",
        file: FLAT,
        insured: PAID_UP_TERM,
        on: THREE_YEARS,
        measure: Terminal,
        t: 3,
        worth: Bounds(0, 0),
    },
    Case {
        name: "paid up: limited",
        file: FLAT,
        insured: PAID_UP_LIMITED,
        on: ONE_YEAR,
        measure: Terminal,
        t: 1,
        worth: Bounds(30_000, 30_000),
    },
];

#[test]
fn reserves(rt: HostRuntime) -> Result<(), Fail> {
    all_hold(&rt, rt.alloc(), &[RESERVES, PAID_UP_RESERVES])
}
