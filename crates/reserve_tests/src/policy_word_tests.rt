// Rows of a valuation without a reserve: those with a word, and those of policies that aren't insured.
use crate::policy_rows::{Case, Expected, FLAT, ISSUED, OLD, TERM, TWO_YEARS, all_hold};
use Expected::{Bounds, Word};
use Measure::{Deficiency, Mean, Terminal};
use NotValued::{BelowTable, NoBasis, PastTable, RateHigh};
use Plan::{Endowment, Term, Whole};
use Status::{Claimed, Expired, InForce, Lapsed, Matured, PaidUp, Settled};
use policy_types::{Plan, Status};
use policy_value::{Measure, NotValued};
use std::test::Fail;

const AFTER_ISSUE: &[u8] = b"2020-01-02,q.xml,0";

const HIGH: &[u8] = b"1900-01-01,high.xml,0";

const LATE: &[u8] = b"1900-01-01,late.xml,0";

const WORDS: &[Case] = &[
    Case {
        name: "nothing named",
        file: b"",
        insured: TERM,
        on: TWO_YEARS,
        measure: Terminal,
        t: 0,
        worth: Word(NoBasis),
    },
    Case {
        name: "named a day late",
        file: AFTER_ISSUE,
        insured: OLD,
        on: TWO_YEARS,
        measure: Terminal,
        t: 0,
        worth: Word(NoBasis),
    },
    Case {
        name: "below the table",
        file: LATE,
        insured: (Endowment, 0, 60, 100_000, 40_000, InForce),
        on: TWO_YEARS,
        measure: Terminal,
        t: 0,
        worth: Word(BelowTable),
    },
    Case {
        name: "one year left",
        file: FLAT,
        insured: OLD,
        on: TWO_YEARS,
        measure: Terminal,
        t: 0,
        worth: Word(PastTable),
    },
    Case {
        name: "six years of five",
        file: FLAT,
        insured: (Term, 0, 6, 100_000, 40_000, InForce),
        on: TWO_YEARS,
        measure: Terminal,
        t: 0,
        worth: Word(PastTable),
    },
    Case {
        name: "past a high rate",
        file: HIGH,
        insured: (Term, 3, 3, 100_000, 40_000, InForce),
        on: TWO_YEARS,
        measure: Terminal,
        t: 0,
        worth: Word(PastTable),
    },
    Case {
        name: "above one half",
        file: HIGH,
        insured: (Whole, 3, 0, 100_000, 40_000, InForce),
        on: TWO_YEARS,
        measure: Terminal,
        t: 0,
        worth: Word(RateHigh),
    },
    Case {
        name: "paid up: one year left",
        file: FLAT,
        insured: (Whole, 4, 0, 100_000, 40_000, PaidUp),
        on: TWO_YEARS,
        measure: Terminal,
        t: 0,
        worth: Word(PastTable),
    },
    Case {
        name: "mean: one year left",
        file: FLAT,
        insured: OLD,
        on: TWO_YEARS,
        measure: Mean,
        t: 0,
        worth: Word(PastTable),
    },
    Case {
        name: "deficiency: one year left",
        file: FLAT,
        insured: OLD,
        on: TWO_YEARS,
        measure: Deficiency,
        t: 0,
        worth: Word(PastTable),
    },
];

// Of each pair, one policy has a reserve while it is insured, and the other a word.
const NOTHING_INSURED: &[Case] = &[
    Case {
        name: "lapsed",
        file: FLAT,
        insured: (Whole, 0, 0, 100_000, 40_000, Lapsed),
        on: TWO_YEARS,
        measure: Terminal,
        t: 0,
        worth: Bounds(0, 0),
    },
    Case {
        name: "lapsed",
        file: FLAT,
        insured: (Whole, 4, 0, 100_000, 40_000, Lapsed),
        on: TWO_YEARS,
        measure: Terminal,
        t: 0,
        worth: Bounds(0, 0),
    },
    Case {
        name: "claimed",
        file: FLAT,
        insured: (Whole, 0, 0, 100_000, 40_000, Claimed),
        on: TWO_YEARS,
        measure: Terminal,
        t: 0,
        worth: Bounds(0, 0),
    },
    Case {
        name: "claimed",
        file: FLAT,
        insured: (Whole, 4, 0, 100_000, 40_000, Claimed),
        on: TWO_YEARS,
        measure: Terminal,
        t: 0,
        worth: Bounds(0, 0),
    },
    Case {
        name: "matured",
        file: FLAT,
        insured: (Whole, 0, 0, 100_000, 40_000, Matured),
        on: TWO_YEARS,
        measure: Terminal,
        t: 0,
        worth: Bounds(0, 0),
    },
    Case {
        name: "matured",
        file: FLAT,
        insured: (Whole, 4, 0, 100_000, 40_000, Matured),
        on: TWO_YEARS,
        measure: Terminal,
        t: 0,
        worth: Bounds(0, 0),
    },
    Case {
        name: "expired",
        file: FLAT,
        insured: (Whole, 0, 0, 100_000, 40_000, Expired),
        on: TWO_YEARS,
        measure: Terminal,
        t: 0,
        worth: Bounds(0, 0),
    },
    Case {
        name: "expired",
        file: FLAT,
        insured: (Whole, 4, 0, 100_000, 40_000, Expired),
        on: TWO_YEARS,
        measure: Terminal,
        t: 0,
        worth: Bounds(0, 0),
    },
    Case {
        name: "settled",
        file: FLAT,
        insured: (Whole, 0, 0, 100_000, 40_000, Settled),
        on: TWO_YEARS,
        measure: Terminal,
        t: 0,
        worth: Bounds(0, 0),
    },
    Case {
        name: "settled",
        file: FLAT,
        insured: (Whole, 4, 0, 100_000, 40_000, Settled),
        on: TWO_YEARS,
        measure: Terminal,
        t: 0,
        worth: Bounds(0, 0),
    },
    Case {
        name: "not issued yet",
        file: FLAT,
        insured: (Whole, 0, 0, 100_000, 40_000, InForce),
        on: ISSUED - 1,
        measure: Terminal,
        t: 0,
        worth: Bounds(0, 0),
    },
    Case {
        name: "not issued yet",
        file: FLAT,
        insured: (Whole, 4, 0, 100_000, 40_000, InForce),
        on: ISSUED - 1,
        measure: Terminal,
        t: 0,
        worth: Bounds(0, 0),
    },
    Case {
        name: "paid up, not issued yet",
        file: FLAT,
        insured: (Whole, 0, 0, 100_000, 40_000, PaidUp),
        on: ISSUED - 1,
        measure: Terminal,
        t: 0,
        worth: Bounds(0, 0),
    },
    Case {
        name: "paid up, not issued yet",
        file: FLAT,
        insured: (Whole, 4, 0, 100_000, 40_000, PaidUp),
        on: ISSUED - 1,
        measure: Terminal,
        t: 0,
        worth: Bounds(0, 0),
    },
];

#[test]
fn words_and_nothing(rt: HostRuntime) -> Result<(), Fail> {
    all_hold(&rt, rt.alloc(), &[WORDS, NOTHING_INSURED])
}
