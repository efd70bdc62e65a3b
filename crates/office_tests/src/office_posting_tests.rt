// The rows of postings to which an office replies, what it then shows, and what it has when it is opened again. Days,
// amounts and balances are worked by hand from the rules.
use crate::office_desk::{Posting, answers, office_on, shows};
use crate::policies::NEW_YEAR;
use money_ledgers::Ledger;
use office_state::Answer;
use policy_types::{Command, Plan, Policy, Refusal, Status};
use std::alloc::{AllocError, Global};
use test_rows::assert_rows;

const ISSUED: Command = Command::Issue {
    id: 7001,
    day: NEW_YEAR,
    plan: Plan::Endowment,
    age: 0,
    years: 3,
    amount: 100_000,
    premium: 40_000,
};

const PAID: Command = Command::Premium {
    id: 7001,
    day: NEW_YEAR,
    amount: 40_000,
};

// 2020-02-02 is after the 31 days of grace, 2020-02-01 is their last.
const GRACE: &[Posting] = &[
    Posting {
        command: ISSUED,
        answer: Answer::Accepted(1),
    },
    Posting {
        command: Command::Premium {
            id: 7001,
            day: 18294,
            amount: 40_000,
        },
        answer: Answer::Refused(Refusal::GraceOver(NEW_YEAR)),
    },
    Posting {
        command: Command::Premium {
            id: 7001,
            day: 18293,
            amount: 40_000,
        },
        answer: Answer::Accepted(2),
    },
];

// Issued on 2024-02-29; the next premium falls due on 2025-02-28, and may be paid from 2024-11-30 on.
const LEAP_DAY: &[Posting] = &[
    Posting {
        command: Command::Issue {
            id: 7001,
            day: 19782,
            plan: Plan::Endowment,
            age: 0,
            years: 3,
            amount: 100_000,
            premium: 40_000,
        },
        answer: Answer::Accepted(1),
    },
    Posting {
        command: Command::Premium {
            id: 7001,
            day: 19782,
            amount: 40_000,
        },
        answer: Answer::Accepted(2),
    },
    Posting {
        command: Command::Premium {
            id: 7001,
            day: 20056,
            amount: 40_000,
        },
        answer: Answer::Refused(Refusal::TooEarly(20147)),
    },
    Posting {
        command: Command::Premium {
            id: 7001,
            day: 20057,
            amount: 40_000,
        },
        answer: Answer::Accepted(3),
    },
];

const LAPSE_AND_REINSTATE: &[Posting] = &[
    Posting {
        command: ISSUED,
        answer: Answer::Accepted(1),
    },
    Posting {
        command: PAID,
        answer: Answer::Accepted(2),
    },
    Posting {
        command: Command::Lapse {
            id: 7001,
            day: 18659,
        },
        answer: Answer::Refused(Refusal::NotInArrears(18628)),
    },
    Posting {
        command: Command::Lapse {
            id: 7001,
            day: 18660,
        },
        answer: Answer::Accepted(3),
    },
    Posting {
        command: Command::Reinstate {
            id: 7001,
            day: 18993,
            amount: 79_999,
        },
        answer: Answer::Refused(Refusal::WrongAmount(80_000)),
    },
    Posting {
        command: Command::Reinstate {
            id: 7001,
            day: 18993,
            amount: 80_000,
        },
        answer: Answer::Accepted(4),
    },
];

const CLAIM_AND_SETTLE: &[Posting] = &[
    Posting {
        command: ISSUED,
        answer: Answer::Accepted(1),
    },
    Posting {
        command: ISSUED,
        answer: Answer::Refused(Refusal::Taken),
    },
    Posting {
        command: Command::Claim {
            id: 7002,
            day: 18414,
        },
        answer: Answer::Refused(Refusal::Unknown),
    },
    Posting {
        command: PAID,
        answer: Answer::Accepted(2),
    },
    Posting {
        command: Command::Claim {
            id: 7001,
            day: 18414,
        },
        answer: Answer::Accepted(3),
    },
    Posting {
        command: Command::Settle {
            id: 7001,
            day: 18444,
            amount: 40_000,
        },
        answer: Answer::Accepted(4),
    },
    Posting {
        command: Command::Settle {
            id: 7001,
            day: 18445,
            amount: 60_001,
        },
        answer: Answer::Refused(Refusal::OverSettled(60_000)),
    },
];

// What is posted on an empty disk, and the policy and the balances that it leaves.
struct Row {
    postings: &'static [Posting],
    policy: Policy,
    ledger: Ledger,
}

const ROWS: &[Row] = &[
    Row {
        postings: GRACE,
        policy: Policy {
            id: 7001,
            plan: Plan::Endowment,
            age: 0,
            years: 3,
            amount: 100_000,
            premium: 40_000,
            issued: NEW_YEAR,
            last: 18293,
            paid: 1,
            status: Status::InForce,
            outstanding: 0,
        },
        ledger: Ledger {
            cash: 40_000,
            premiums: -40_000,
            incurred: 0,
            payable: 0,
        },
    },
    Row {
        postings: LEAP_DAY,
        policy: Policy {
            id: 7001,
            plan: Plan::Endowment,
            age: 0,
            years: 3,
            amount: 100_000,
            premium: 40_000,
            issued: 19782,
            last: 20057,
            paid: 2,
            status: Status::InForce,
            outstanding: 0,
        },
        ledger: Ledger {
            cash: 80_000,
            premiums: -80_000,
            incurred: 0,
            payable: 0,
        },
    },
    Row {
        postings: LAPSE_AND_REINSTATE,
        policy: Policy {
            id: 7001,
            plan: Plan::Endowment,
            age: 0,
            years: 3,
            amount: 100_000,
            premium: 40_000,
            issued: NEW_YEAR,
            last: 18993,
            paid: 3,
            status: Status::InForce,
            outstanding: 0,
        },
        ledger: Ledger {
            cash: 120_000,
            premiums: -120_000,
            incurred: 0,
            payable: 0,
        },
    },
    Row {
        postings: CLAIM_AND_SETTLE,
        policy: Policy {
            id: 7001,
            plan: Plan::Endowment,
            age: 0,
            years: 3,
            amount: 100_000,
            premium: 40_000,
            issued: NEW_YEAR,
            last: 18444,
            paid: 1,
            status: Status::Claimed,
            outstanding: 60_000,
        },
        ledger: Ledger {
            cash: 0,
            premiums: -40_000,
            incurred: 100_000,
            payable: -60_000,
        },
    },
];

// Whether the office replies as the row says, and what it leaves is there when it is opened again.
fn stands(alloc: Global, row: &Row) -> Result<bool, AllocError> {
    let Ok(mut desk) = office_on(alloc, &[], &[])? else {
        return Ok(false);
    };
    let answered = answers(&mut desk, row.postings);
    let shown = shows(&desk, desk.office.count(), &[row.policy]);
    let (disk, balances, reports, _) = desk.office.close();
    let Ok(again) = office_on(alloc, disk.bytes(), &[])? else {
        return Ok(false);
    };
    let right = answered && shown && reports.as_slice().is_empty() && balances == row.ledger;
    Ok(
        right
            && shows(&again, again.office.count(), &[row.policy])
            && again.office.ledger() == row.ledger,
    )
}

#[test]
fn rows_of_postings(rt: HostRuntime) -> Result<(), AllocError> {
    assert_rows!(rt; (number, row) in ROWS.iter().enumerate() => stands(rt.alloc(), row)?; "row {number}");
    Ok(())
}

// Two policies, as they were after each of four commands.
const FOUR: &[Posting] = &[
    Posting {
        command: ISSUED,
        answer: Answer::Accepted(1),
    },
    Posting {
        command: PAID,
        answer: Answer::Accepted(2),
    },
    Posting {
        command: Command::Issue {
            id: 3,
            day: NEW_YEAR,
            plan: Plan::Endowment,
            age: 0,
            years: 3,
            amount: 100_000,
            premium: 40_000,
        },
        answer: Answer::Accepted(3),
    },
    Posting {
        command: Command::Premium {
            id: 7001,
            day: 18538,
            amount: 40_000,
        },
        answer: Answer::Accepted(4),
    },
];

const FIRST: Policy = Policy {
    id: 7001,
    plan: Plan::Endowment,
    age: 0,
    years: 3,
    amount: 100_000,
    premium: 40_000,
    issued: NEW_YEAR,
    last: NEW_YEAR,
    paid: 0,
    status: Status::InForce,
    outstanding: 0,
};

const FIRST_PAID: Policy = Policy {
    id: 7001,
    plan: Plan::Endowment,
    age: 0,
    years: 3,
    amount: 100_000,
    premium: 40_000,
    issued: NEW_YEAR,
    last: NEW_YEAR,
    paid: 1,
    status: Status::InForce,
    outstanding: 0,
};

const FIRST_PAID_TWICE: Policy = Policy {
    id: 7001,
    plan: Plan::Endowment,
    age: 0,
    years: 3,
    amount: 100_000,
    premium: 40_000,
    issued: NEW_YEAR,
    last: 18538,
    paid: 2,
    status: Status::InForce,
    outstanding: 0,
};

const SECOND: Policy = Policy {
    id: 3,
    plan: Plan::Endowment,
    age: 0,
    years: 3,
    amount: 100_000,
    premium: 40_000,
    issued: NEW_YEAR,
    last: NEW_YEAR,
    paid: 0,
    status: Status::InForce,
    outstanding: 0,
};

const SHOWN: &[&[Policy]] = &[
    &[],
    &[FIRST],
    &[FIRST_PAID],
    &[FIRST_PAID, SECOND],
    &[FIRST_PAID_TWICE, SECOND],
];

// Whether the office accepts these postings, and shows exactly these policies at each position from 0 on.
fn shows_each(
    alloc: Global,
    postings: &[Posting],
    shown: &[&[Policy]],
) -> Result<bool, AllocError> {
    let Ok(mut desk) = office_on(alloc, &[], &[])? else {
        return Ok(false);
    };
    if !answers(&mut desk, postings) {
        return Ok(false);
    }
    for (position, policies) in (0..5u32).zip(shown) {
        if !shows(&desk, position, policies) {
            return Ok(false);
        }
    }
    Ok(true)
}

#[test]
fn policies_at_each_position(rt: HostRuntime) -> Result<(), AllocError> {
    assert!(rt; shows_each(rt.alloc(), FOUR, SHOWN)?);
    Ok(())
}
