// The results of each command, by hand from the rules. The policy 7001 is issued on 2020-01-01 at age 40 for 1000.00
// with an annual premium of 150.00: as an endowment for five years, or for two years or with two premiums. Its
// anniversaries are the days 18262, 18628, 18993, 19358, 19723 and 20089.
use Plan::{Endowment, Limited, Term};
use Refusal::{
    BeforeLast, GraceOver, NotAReduction, NotInArrears, NotMatured, NothingDue, OverSettled, Taken,
    TermOver, TooEarly, TooLate, Unknown, WrongAmount, WrongStatus,
};
use Status::{Claimed, Expired, InForce, Lapsed, Matured, Settled};
use Step::{Alter, Claim, Issue, Lapse, Mature, Pay, Reinstate, Settle};
use policy_types::{Plan, Refusal, Status};

#[derive(Clone, Copy)]
pub(crate) enum Step {
    Issue(Plan),
    Pay(i32, u64),
    Alter(i32, u64, u64),
    Lapse(i32),
    Reinstate(i32, u64),
    Claim(i32),
    Settle(i32, u64),
    Mature(i32),
    // Made paid up.
    Reduce(i32, u64),
}

// The last day, amount, premium, number of premiums paid, status and what is outstanding.
pub(crate) type State = (i32, u64, u64, u8, Status, u64);

// A name, the accepted commands before, the command, and its result.
pub(crate) type Row = (&'static str, &'static [Step], Step, Result<State, Refusal>);

pub(crate) const FIRST: Step = Pay(18_262, 15_000);

const SECOND: Step = Pay(18_538, 15_000);

pub(crate) const PAID: &[Step] = &[Issue(Endowment), FIRST];

pub(crate) const PAID_LATE: &[Step] = &[Issue(Endowment), Pay(18_290, 15_000)];

const LAPSED: &[Step] = &[Issue(Endowment), Lapse(18_294)];

const LAPSED_LATER: &[Step] = &[Issue(Endowment), FIRST, Lapse(18_660)];

pub(crate) const CLAIMED: &[Step] = &[Issue(Endowment), FIRST, Claim(18_300)];

const PARTLY_SETTLED: &[Step] = &[
    Issue(Endowment),
    FIRST,
    Claim(18_300),
    Settle(18_310, 40_000),
];

const PAID_ALL: &[Step] = &[
    Issue(Endowment),
    FIRST,
    SECOND,
    Pay(18_993, 15_000),
    Pay(19_358, 15_000),
    Pay(19_723, 15_000),
];

const MATURED: &[Step] = &[
    Issue(Endowment),
    FIRST,
    SECOND,
    Pay(18_993, 15_000),
    Pay(19_358, 15_000),
    Pay(19_723, 15_000),
    Mature(20_089),
];

pub(crate) const TERM: &[Step] = &[Issue(Term), FIRST, SECOND];

pub(crate) const PAID_UP: &[Step] = &[Issue(Limited), FIRST, SECOND];

const PAID_UP_BUT_ONE: &[Step] = &[Issue(Limited), FIRST, Lapse(18_660)];

pub(crate) const ROWS: &[Row] = &[
    (
        "issue",
        &[],
        Issue(Endowment),
        Ok((18_262, 100_000, 15_000, 0, InForce, 0)),
    ),
    ("issue: taken", PAID, Issue(Endowment), Err(Taken)),
    ("premium: unknown", &[], FIRST, Err(Unknown)),
    (
        "alter: unknown",
        &[],
        Alter(18_262, 90_000, 10_000),
        Err(Unknown),
    ),
    ("lapse: unknown", &[], Lapse(18_294), Err(Unknown)),
    (
        "reinstate: unknown",
        &[],
        Reinstate(18_294, 15_000),
        Err(Unknown),
    ),
    ("claim: unknown", &[], Claim(18_262), Err(Unknown)),
    ("settle: unknown", &[], Settle(18_262, 1), Err(Unknown)),
    ("mature: unknown", &[], Mature(20_089), Err(Unknown)),
    (
        "premium: before the last day",
        PAID_LATE,
        Pay(18_289, 15_000),
        Err(BeforeLast(18_290)),
    ),
    (
        "premium: lapsed",
        LAPSED,
        Pay(18_294, 15_000),
        Err(WrongStatus(Lapsed)),
    ),
    (
        "premium: term and grace over",
        PAID,
        Pay(20_089, 15_000),
        Err(TermOver(20_089)),
    ),
    (
        "premium: all paid",
        PAID_UP,
        Pay(18_538, 15_000),
        Err(NothingDue),
    ),
    (
        "premium: 91 days before",
        PAID,
        Pay(18_537, 14_999),
        Err(TooEarly(18_628)),
    ),
    (
        "premium: 90 days before",
        PAID,
        Pay(18_538, 15_000),
        Ok((18_538, 100_000, 15_000, 2, InForce, 0)),
    ),
    (
        "premium: the last day of grace",
        PAID,
        Pay(18_659, 15_000),
        Ok((18_659, 100_000, 15_000, 2, InForce, 0)),
    ),
    (
        "premium: a day after grace",
        PAID,
        Pay(18_660, 14_999),
        Err(GraceOver(18_628)),
    ),
    (
        "premium: a cent less",
        PAID,
        Pay(18_628, 14_999),
        Err(WrongAmount(15_000)),
    ),
    (
        "alter: before the last day",
        PAID_LATE,
        Alter(18_289, 90_000, 10_000),
        Err(BeforeLast(18_290)),
    ),
    (
        "alter: claimed",
        CLAIMED,
        Alter(18_300, 90_000, 10_000),
        Err(WrongStatus(Claimed)),
    ),
    (
        "alter: term over",
        PAID,
        Alter(20_089, 90_000, 10_000),
        Err(TermOver(20_089)),
    ),
    (
        "alter: a day before the end",
        PAID,
        Alter(20_088, 90_000, 10_000),
        Err(GraceOver(18_628)),
    ),
    (
        "alter: the same amount",
        PAID,
        Alter(18_659, 100_000, 10_000),
        Err(NotAReduction(100_000)),
    ),
    (
        "alter: a cent less",
        PAID,
        Alter(18_659, 99_999, 16_000),
        Ok((18_659, 99_999, 16_000, 1, InForce, 0)),
    ),
    (
        "alter: paid up",
        PAID_UP,
        Alter(21_915, 1, 1),
        Ok((21_915, 1, 1, 2, InForce, 0)),
    ),
    (
        "lapse: before the last day",
        PAID_LATE,
        Lapse(18_289),
        Err(BeforeLast(18_290)),
    ),
    (
        "lapse: lapsed",
        LAPSED,
        Lapse(18_294),
        Err(WrongStatus(Lapsed)),
    ),
    ("lapse: all paid", PAID_UP, Lapse(21_915), Err(NothingDue)),
    (
        "lapse: the last day of grace",
        PAID,
        Lapse(18_659),
        Err(NotInArrears(18_628)),
    ),
    (
        "lapse: a day after grace",
        PAID,
        Lapse(18_660),
        Ok((18_660, 100_000, 15_000, 1, Lapsed, 0)),
    ),
    (
        "lapse: after the end",
        PAID,
        Lapse(20_089),
        Ok((20_089, 100_000, 15_000, 1, Lapsed, 0)),
    ),
    (
        "reinstate: before the last day",
        LAPSED,
        Reinstate(18_293, 15_000),
        Err(BeforeLast(18_294)),
    ),
    (
        "reinstate: in force",
        PAID,
        Reinstate(18_660, 15_000),
        Err(WrongStatus(InForce)),
    ),
    (
        "reinstate: term over",
        LAPSED,
        Reinstate(20_089, 75_000),
        Err(TermOver(20_089)),
    ),
    (
        "reinstate: three years and a day",
        LAPSED,
        Reinstate(19_359, 60_000),
        Err(TooLate(19_358)),
    ),
    (
        "reinstate: a premium less",
        LAPSED,
        Reinstate(19_358, 45_000),
        Err(WrongAmount(60_000)),
    ),
    (
        "reinstate: three years",
        LAPSED,
        Reinstate(19_358, 60_000),
        Ok((19_358, 100_000, 15_000, 4, InForce, 0)),
    ),
    (
        "reinstate: a day before the next anniversary",
        LAPSED_LATER,
        Reinstate(18_992, 15_000),
        Ok((18_992, 100_000, 15_000, 2, InForce, 0)),
    ),
    (
        "reinstate: no more than all premiums",
        PAID_UP_BUT_ONE,
        Reinstate(19_000, 15_000),
        Ok((19_000, 100_000, 15_000, 2, InForce, 0)),
    ),
    (
        "claim: before the last day",
        PAID_LATE,
        Claim(18_289),
        Err(BeforeLast(18_290)),
    ),
    (
        "claim: claimed",
        CLAIMED,
        Claim(18_300),
        Err(WrongStatus(Claimed)),
    ),
    (
        "claim: term over",
        TERM,
        Claim(18_993),
        Err(TermOver(18_993)),
    ),
    (
        "claim: a day after grace",
        PAID,
        Claim(18_660),
        Err(GraceOver(18_628)),
    ),
    (
        "claim: the last day of grace",
        PAID,
        Claim(18_659),
        Ok((18_659, 100_000, 15_000, 1, Claimed, 100_000)),
    ),
    (
        "claim: a day before the end",
        TERM,
        Claim(18_992),
        Ok((18_992, 100_000, 15_000, 2, Claimed, 100_000)),
    ),
    (
        "settle: before the last day",
        CLAIMED,
        Settle(18_299, 1),
        Err(BeforeLast(18_300)),
    ),
    (
        "settle: in force",
        PAID,
        Settle(18_300, 1),
        Err(WrongStatus(InForce)),
    ),
    (
        "settle: a cent too much",
        PARTLY_SETTLED,
        Settle(18_310, 60_001),
        Err(OverSettled(60_000)),
    ),
    (
        "settle: but a cent",
        PARTLY_SETTLED,
        Settle(18_310, 59_999),
        Ok((18_310, 100_000, 15_000, 1, Claimed, 1)),
    ),
    (
        "settle: all",
        PARTLY_SETTLED,
        Settle(18_310, 60_000),
        Ok((18_310, 100_000, 15_000, 1, Settled, 0)),
    ),
    (
        "settle: a part of a matured amount",
        MATURED,
        Settle(20_089, 1),
        Ok((20_089, 100_000, 15_000, 5, Matured, 99_999)),
    ),
    (
        "mature: before the last day",
        PAID_LATE,
        Mature(18_289),
        Err(BeforeLast(18_290)),
    ),
    (
        "mature: matured",
        MATURED,
        Mature(20_089),
        Err(WrongStatus(Matured)),
    ),
    (
        "mature: a premium missed",
        PAID,
        Mature(18_660),
        Err(GraceOver(18_628)),
    ),
    (
        "mature: a day before the end",
        TERM,
        Mature(18_992),
        Err(NotMatured(18_993)),
    ),
    (
        "mature: a term policy",
        TERM,
        Mature(18_993),
        Ok((18_993, 100_000, 15_000, 2, Expired, 0)),
    ),
    (
        "mature: a matured amount falls due",
        PAID_ALL,
        Mature(20_090),
        Ok((20_090, 100_000, 15_000, 5, Matured, 100_000)),
    ),
];
