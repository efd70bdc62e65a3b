// The results of the commands that make a policy paid up, and of those on a paid-up policy, by hand from the rules.
// The policies are those of the other rows; those that are made paid up are made so on 2020-02-08, for 300.00.
use crate::policy_machine_rows::{CLAIMED, FIRST, PAID, PAID_LATE, PAID_UP, Row, Step, TERM};
use Plan::{Endowment, Term};
use Refusal::{
    BeforeLast, GraceOver, NotAReduction, NotMatured, NothingDue, TermOver, Unknown, WrongStatus,
};
use Status::{Claimed, Expired, Matured, PaidUp};
use Step::{Alter, Claim, Issue, Lapse, Mature, Pay, Reduce, Reinstate};
use policy_types::{Plan, Refusal, Status};

const REDUCED: &[Step] = &[Issue(Endowment), FIRST, Reduce(18_300, 30_000)];

const REDUCED_TERM: &[Step] = &[Issue(Term), FIRST, Reduce(18_300, 30_000)];

pub(crate) const PAID_UP_ROWS: &[Row] = &[
    ("paid up: unknown", &[], Reduce(18_262, 1), Err(Unknown)),
    (
        "paid up: before the last day",
        PAID_LATE,
        Reduce(18_289, 30_000),
        Err(BeforeLast(18_290)),
    ),
    (
        "paid up: claimed",
        CLAIMED,
        Reduce(18_300, 30_000),
        Err(WrongStatus(Claimed)),
    ),
    (
        "paid up: again",
        REDUCED,
        Reduce(18_300, 30_000),
        Err(WrongStatus(PaidUp)),
    ),
    (
        "paid up: term and grace over",
        PAID,
        Reduce(20_089, 30_000),
        Err(TermOver(20_089)),
    ),
    (
        "paid up: a term policy past its end",
        TERM,
        Reduce(18_993, 30_000),
        Err(TermOver(18_993)),
    ),
    (
        "paid up: all paid, and not reduced",
        PAID_UP,
        Reduce(18_538, 100_000),
        Err(NothingDue),
    ),
    (
        "paid up: a day after grace, and not reduced",
        PAID,
        Reduce(18_660, 100_000),
        Err(GraceOver(18_628)),
    ),
    (
        "paid up: the same amount",
        PAID,
        Reduce(18_659, 100_000),
        Err(NotAReduction(100_000)),
    ),
    (
        "paid up: the last day of grace, a cent less",
        PAID,
        Reduce(18_659, 99_999),
        Ok((18_659, 99_999, 15_000, 1, PaidUp, 0)),
    ),
    (
        "reduced: no premium",
        REDUCED,
        Pay(18_628, 15_000),
        Err(WrongStatus(PaidUp)),
    ),
    (
        "reduced: not altered",
        REDUCED,
        Alter(18_300, 20_000, 10_000),
        Err(WrongStatus(PaidUp)),
    ),
    (
        "reduced: no lapse",
        REDUCED,
        Lapse(18_660),
        Err(WrongStatus(PaidUp)),
    ),
    (
        "reduced: not reinstated",
        REDUCED,
        Reinstate(18_660, 15_000),
        Err(WrongStatus(PaidUp)),
    ),
    (
        "reduced: claim before the last day",
        REDUCED,
        Claim(18_299),
        Err(BeforeLast(18_300)),
    ),
    (
        "reduced: claim a day before the end",
        REDUCED,
        Claim(20_088),
        Ok((20_088, 30_000, 15_000, 1, Claimed, 30_000)),
    ),
    (
        "reduced: claim at the end",
        REDUCED,
        Claim(20_089),
        Err(TermOver(20_089)),
    ),
    (
        "reduced: a day before the end",
        REDUCED,
        Mature(20_088),
        Err(NotMatured(20_089)),
    ),
    (
        "reduced: matured",
        REDUCED,
        Mature(20_089),
        Ok((20_089, 30_000, 15_000, 1, Matured, 30_000)),
    ),
    (
        "reduced: a term policy expires",
        REDUCED_TERM,
        Mature(18_993),
        Ok((18_993, 30_000, 15_000, 1, Expired, 0)),
    ),
];
