// The pins of an office: what they hold, what they read, and the floors that they leave.
use crate::office_desk::{Desk, MOST_TURNS, Posting, accepted, answers, office_on, policy};
use crate::policies::{NEW_YEAR, issue, premium};
use office_state::{Answer, PinInfo, PolicyBatch};
use policy_types::{Command, PinRefusal, Plan, Refusal, Status};
use std::alloc::{AllocError, Global};
use test_rows::assert_rows;
use watcher_set::NoWatchers;

// A call of one caller that concerns pins, and its reply.
#[derive(Clone, Copy)]
pub(crate) enum Pinning {
    Now(Result<PinInfo, PinRefusal>),
    At(u32, Result<PinInfo, PinRefusal>),
    Trim(u32),
    Unpin(u64),
}

pub(crate) fn pinned(number: u64, position: u32, policies: u32) -> Result<PinInfo, PinRefusal> {
    Ok(PinInfo {
        number,
        position,
        policies,
    })
}

// Whether the office replies so.
pub(crate) fn pins_so(desk: &mut Desk<NoWatchers>, pinning: Pinning) -> bool {
    if MOST_TURNS <= desk.office.turns() {
        return false;
    }
    match pinning {
        Pinning::Now(answer) => desk.office.pin(1) == answer,
        Pinning::At(p, answer) => desk.office.pin_at(1, p) == answer,
        Pinning::Trim(floor) => desk.office.trim(1) == floor,
        Pinning::Unpin(pin) => gives_up(desk, pin),
    }
}

fn gives_up(desk: &mut Desk<NoWatchers>, pin: u64) -> bool {
    let Some(held) = desk.office.held(pin) else {
        return false;
    };
    if MOST_TURNS <= desk.office.turns() || held.caller != 1 {
        return false;
    }
    desk.office.unpin(1, pin);
    desk.office.held(pin).is_none()
}

// Reads a batch of a pin, if the caller holds it.
pub(crate) fn reads(
    desk: &mut Desk<NoWatchers>,
    pin: u64,
    first: u32,
    batch: &mut PolicyBatch,
) -> bool {
    let Some(held) = desk.office.held(pin) else {
        return false;
    };
    if MOST_TURNS <= desk.office.turns() || held.caller != 1 || held.policies < first {
        return false;
    }
    desk.office.read(1, pin, first, batch);
    true
}

// Whether the batch has so many policies, the first and the last of these numbers.
fn holds(batch: &PolicyBatch, many: usize, ids: (u32, u32)) -> bool {
    let policies = batch.policies();
    if policies.len() != many {
        return false;
    }
    match (policies.first(), policies.last()) {
        (Some(first), Some(last)) => (first.id, last.id) == ids,
        _ => many == 0,
    }
}

const POSTINGS: &[Posting] = &[
    Posting {
        command: Command::Issue {
            id: 7001,
            day: NEW_YEAR,
            plan: Plan::Endowment,
            age: 0,
            years: 3,
            amount: 100_000,
            premium: 40_000,
        },
        answer: Answer::Accepted(1),
    },
    Posting {
        command: Command::Premium {
            id: 7001,
            day: NEW_YEAR,
            amount: 40_000,
        },
        answer: Answer::Accepted(2),
    },
    Posting {
        command: Command::Issue {
            id: 3,
            day: NEW_YEAR,
            plan: Plan::Endowment,
            age: 0,
            years: 3,
            amount: 100_000,
            premium: 40_000,
        },
        answer: Answer::Accepted(3),
    },
    Posting {
        command: Command::Issue {
            id: 3,
            day: NEW_YEAR,
            plan: Plan::Endowment,
            age: 0,
            years: 3,
            amount: 100_000,
            premium: 40_000,
        },
        answer: Answer::Refused(Refusal::Taken),
    },
    Posting {
        command: Command::Issue {
            id: 4,
            day: NEW_YEAR,
            plan: Plan::Endowment,
            age: 0,
            years: 3,
            amount: 100_000,
            premium: 40_000,
        },
        answer: Answer::Accepted(4),
    },
];

// Pins of an empty office.
const EMPTY: &[Pinning] = &[
    Pinning::At(1, Err(PinRefusal::Ahead(0))),
    Pinning::At(
        0,
        Ok(PinInfo {
            number: 1,
            position: 0,
            policies: 0,
        }),
    ),
    Pinning::Trim(0),
    Pinning::Unpin(1),
    Pinning::Trim(0),
];

// Pins below, at and above the count of three policies, whose postings take the turns 5 to 9, and the floors that they leave.
const FULL: &[Pinning] = &[
    Pinning::At(5, Err(PinRefusal::Ahead(4))),
    Pinning::Now(Ok(PinInfo {
        number: 11,
        position: 4,
        policies: 3,
    })),
    Pinning::At(
        3,
        Ok(PinInfo {
            number: 12,
            position: 3,
            policies: 2,
        }),
    ),
    Pinning::At(
        2,
        Ok(PinInfo {
            number: 13,
            position: 2,
            policies: 1,
        }),
    ),
    Pinning::At(
        3,
        Ok(PinInfo {
            number: 14,
            position: 3,
            policies: 2,
        }),
    ),
    Pinning::Trim(2),
    Pinning::At(1, Err(PinRefusal::Trimmed(2))),
    Pinning::At(
        2,
        Ok(PinInfo {
            number: 17,
            position: 2,
            policies: 1,
        }),
    ),
    Pinning::Unpin(13),
    Pinning::Trim(2),
    Pinning::Unpin(17),
    Pinning::Trim(3),
    Pinning::At(2, Err(PinRefusal::Trimmed(3))),
    Pinning::Unpin(12),
    Pinning::Unpin(14),
    Pinning::Unpin(11),
    Pinning::Trim(4),
    Pinning::At(3, Err(PinRefusal::Trimmed(4))),
    Pinning::At(5, Err(PinRefusal::Ahead(4))),
    Pinning::At(
        4,
        Ok(PinInfo {
            number: 29,
            position: 4,
            policies: 3,
        }),
    ),
];

fn pins_all(desk: &mut Desk<NoWatchers>, pinnings: &[Pinning]) -> bool {
    for pinning in pinnings {
        if !pins_so(desk, *pinning) {
            return false;
        }
    }
    true
}

// The turns of an office that replies so to these calls, one after the other.
fn turns_after(
    alloc: Global,
    first: &[Pinning],
    postings: &[Posting],
    then: &[Pinning],
) -> Result<Option<u64>, AllocError> {
    let Ok(mut desk) = office_on(alloc, &[], &[])? else {
        return Ok(None);
    };
    if !pins_all(&mut desk, first) || !answers(&mut desk, postings) || !pins_all(&mut desk, then) {
        return Ok(None);
    }
    Ok(Some(desk.office.turns()))
}

#[test]
fn positions_that_are_pinned(rt: HostRuntime) -> Result<(), AllocError> {
    assert!(rt; turns_after(rt.alloc(), EMPTY, POSTINGS, FULL)? == Some(30));
    Ok(())
}

// After sixteen pins.
const SEVENTEENTH: &[Pinning] = &[
    Pinning::Now(Err(PinRefusal::PinsFull)),
    Pinning::At(1, Err(PinRefusal::Ahead(0))),
    Pinning::At(0, Err(PinRefusal::PinsFull)),
    Pinning::Unpin(3),
    Pinning::Now(Ok(PinInfo {
        number: 20,
        position: 0,
        policies: 0,
    })),
    Pinning::Now(Err(PinRefusal::PinsFull)),
];

fn takes_sixteen(desk: &mut Desk<NoWatchers>) -> bool {
    for number in 0..16 {
        if !pins_so(desk, Pinning::Now(pinned(number, 0, 0))) {
            return false;
        }
    }
    true
}

// Sixteen pins are taken, and the next one only once one of them was given up.
#[test]
fn seventeen_pins(rt: HostRuntime) -> Result<(), AllocError> {
    let Ok(mut desk) = office_on(rt.alloc(), &[], &[])? else {
        panic!(rt; "no office");
    };
    assert!(rt; takes_sixteen(&mut desk) && pins_all(&mut desk, SEVENTEENTH));
    Ok(())
}

// A policy that its poster reads back, and as it was when one more command was posted.
#[test]
fn reads_at_a_pins_position(rt: HostRuntime) -> Result<(), AllocError> {
    let alloc = rt.alloc();
    let Ok(mut desk) = office_on(alloc, &[], &[])? else {
        panic!(rt; "no office");
    };
    let Ok(mut batch) = PolicyBatch::new(alloc) else {
        panic!(rt; "no batch");
    };
    assert!(rt; answers(&mut desk, &[accepted(issue(7001, NEW_YEAR), 1)]));
    assert!(rt; pins_so(&mut desk, Pinning::Now(pinned(1, 1, 1))));
    let fresh = [policy(7001, NEW_YEAR, NEW_YEAR, 0, Status::InForce, 0)];
    assert!(rt; reads(&mut desk, 1, 0, &mut batch));
    assert_eq!(rt; batch.policies(), &fresh[..]);
    let later = [
        accepted(premium(NEW_YEAR), 2),
        accepted(issue(3, NEW_YEAR), 3),
        accepted(premium(18538), 4),
    ];
    assert!(rt; answers(&mut desk, &later));
    assert!(rt; pins_so(&mut desk, Pinning::At(3, pinned(6, 3, 2))));
    assert!(rt; reads(&mut desk, 1, 0, &mut batch));
    assert_eq!(rt; batch.policies(), &fresh[..]);
    let paid = [
        policy(7001, NEW_YEAR, NEW_YEAR, 1, Status::InForce, 0),
        policy(3, NEW_YEAR, NEW_YEAR, 0, Status::InForce, 0),
    ];
    assert!(rt; reads(&mut desk, 6, 0, &mut batch));
    assert_eq!(rt; batch.policies(), &paid[..]);
    assert!(rt; reads(&mut desk, 6, 1, &mut batch));
    assert_eq!(rt; batch.policies(), &paid[1..]);
    assert!(rt; reads(&mut desk, 6, 2, &mut batch));
    assert_eq!(rt; batch.policies().len(), 0);
    Ok(())
}

// A pin, the first policy that is read, how many are, and the numbers of the first and the last.
const BATCHES: &[(u64, u32, usize, (u32, u32))] = &[
    (300, 0, 256, (1, 256)),
    (300, 256, 44, (257, 300)),
    (300, 45, 255, (46, 300)),
    (300, 300, 0, (0, 0)),
    (301, 0, 256, (1, 256)),
    (301, 256, 43, (257, 299)),
    (301, 43, 256, (44, 299)),
    (301, 299, 0, (0, 0)),
];

// Three hundred policies, read in batches of at most 256, as they are now and as they were after 299.
#[test]
fn batches_of_many_policies(rt: HostRuntime) -> Result<(), AllocError> {
    let alloc = rt.alloc();
    let Ok(mut desk) = office_on(alloc, &[], &[])? else {
        panic!(rt; "no office");
    };
    let Ok(mut batch) = PolicyBatch::new(alloc) else {
        panic!(rt; "no batch");
    };
    for id in 1..301 {
        assert!(rt; answers(&mut desk, &[accepted(issue(id, NEW_YEAR), id)]));
    }
    assert!(rt; pins_so(&mut desk, Pinning::Now(pinned(300, 300, 300))));
    assert!(rt; pins_so(&mut desk, Pinning::At(299, pinned(301, 299, 299))));
    assert_rows!(rt; (pin, first, policies, ids) in BATCHES =>
        reads(&mut desk, *pin, *first, &mut batch) && holds(&batch, *policies, *ids);
        "from {first} by the pin {pin}");
    Ok(())
}
