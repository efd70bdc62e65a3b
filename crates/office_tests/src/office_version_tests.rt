// What an office keeps of its policies' past: each position that a pin holds is read as it was, and what no pin needs
// is dropped.
use crate::office_desk::{Desk, accepted, answers_one, office_on, shows};
use crate::office_pin_tests::{Pinning, pinned, pins_so, reads};
use crate::policies::{NEW_YEAR, issue, premium_of};
use office_state::PolicyBatch;
use policy_types::{Command, PinRefusal, Plan};
use std::alloc::{AllocError, Global};
use watcher_set::NoWatchers;

// 2021-01-01 and 2022-01-01, when the second and the third premium are due.
const SECOND_YEAR: i32 = 18_628;

const THIRD_YEAR: i32 = 18_993;

/// How many commands the script has.
const COMMANDS: usize = 12;

// Three policies, each issued and paid three times, in turn with the others.
const SCRIPT: [Command; COMMANDS] = [
    Command::Issue {
        id: 1,
        day: NEW_YEAR,
        plan: Plan::Endowment,
        age: 0,
        years: 3,
        amount: 100_000,
        premium: 40_000,
    },
    Command::Premium {
        id: 1,
        day: NEW_YEAR,
        amount: 40_000,
    },
    Command::Issue {
        id: 2,
        day: NEW_YEAR,
        plan: Plan::Endowment,
        age: 0,
        years: 3,
        amount: 100_000,
        premium: 40_000,
    },
    Command::Premium {
        id: 1,
        day: SECOND_YEAR,
        amount: 40_000,
    },
    Command::Premium {
        id: 2,
        day: NEW_YEAR,
        amount: 40_000,
    },
    Command::Issue {
        id: 3,
        day: NEW_YEAR,
        plan: Plan::Endowment,
        age: 0,
        years: 3,
        amount: 100_000,
        premium: 40_000,
    },
    Command::Premium {
        id: 1,
        day: THIRD_YEAR,
        amount: 40_000,
    },
    Command::Premium {
        id: 2,
        day: SECOND_YEAR,
        amount: 40_000,
    },
    Command::Premium {
        id: 3,
        day: NEW_YEAR,
        amount: 40_000,
    },
    Command::Premium {
        id: 2,
        day: THIRD_YEAR,
        amount: 40_000,
    },
    Command::Premium {
        id: 3,
        day: SECOND_YEAR,
        amount: 40_000,
    },
    Command::Premium {
        id: 3,
        day: THIRD_YEAR,
        amount: 40_000,
    },
];

// Whether the office accepts the commands from one place on up to another.
fn posts(desk: &mut Desk<NoWatchers>, from: usize, to: usize) -> bool {
    for place in from..to.min(COMMANDS) {
        if !answers_one(desk, &accepted(SCRIPT[place], place as u32 + 1)) {
            return false;
        }
    }
    true
}

// How many versions a floor leaves of so many commands: those after it, and one of each policy that one of the others names.
fn needed(floor: usize, count: usize) -> usize {
    let mut kept: usize = 0;
    for place in 0..count.min(COMMANDS) {
        let id = SCRIPT[place].id();
        let later = SCRIPT
            .iter()
            .take(floor)
            .skip(place + 1)
            .any(|other| other.id() == id);
        if floor <= place || !later {
            kept = kept.saturating_add(1);
        }
    }
    kept
}

// Whether the pin at a position reads what an office of so many commands has.
fn reads_as_then(
    alloc: Global,
    desk: &mut Desk<NoWatchers>,
    pin: u64,
    position: usize,
    batch: &mut PolicyBatch,
) -> Result<bool, AllocError> {
    let Ok(mut then) = office_on(alloc, &[], &[])? else {
        return Ok(false);
    };
    let told = posts(&mut then, 0, position) && reads(desk, pin, 0, batch);
    Ok(told && shows(&then, position.min(COMMANDS) as u32, batch.policies()))
}

// Five issues, then a premium for each: a trim leaves one version of each policy, but drops none while the fifth
// position is pinned.
#[test]
fn five_policies_paid_once(rt: HostRuntime) -> Result<(), AllocError> {
    let alloc = rt.alloc();
    let Ok(mut desk) = office_on(alloc, &[], &[])? else {
        panic!(rt; "no office");
    };
    for id in 1..6 {
        assert!(rt; answers_one(&mut desk, &accepted(issue(id, NEW_YEAR), id)));
    }
    assert!(rt; pins_so(&mut desk, Pinning::Now(pinned(5, 5, 5))));
    for id in 1..6 {
        assert!(rt; answers_one(&mut desk, &accepted(premium_of(id, NEW_YEAR), id + 5)));
    }
    assert_eq!(rt; desk.office.kept(), 10);
    assert!(rt; pins_so(&mut desk, Pinning::Trim(5)));
    assert_eq!(rt; desk.office.kept(), 10);
    assert!(rt; pins_so(&mut desk, Pinning::Unpin(5)));
    assert!(rt; pins_so(&mut desk, Pinning::Trim(10)));
    assert_eq!(rt; desk.office.kept(), 5);
    assert!(rt; pins_so(&mut desk, Pinning::Trim(10)));
    assert_eq!(rt; desk.office.kept(), 5);
    Ok(())
}

// A pin at each position of a script. They are given up one after the other, the oldest first, with a trim after
// each: the floor is then the next pin's position, what is kept is what the remaining pins need, and each of these
// reads what it held.
#[test]
fn a_pin_at_each_position(rt: HostRuntime) -> Result<(), AllocError> {
    let alloc = rt.alloc();
    let (Ok(mut desk), Ok(mut batch)) = (office_on(alloc, &[], &[])?, PolicyBatch::new(alloc))
    else {
        panic!(rt; "no office");
    };
    assert!(rt; posts(&mut desk, 0, COMMANDS));
    let policies = [0, 1, 1, 2, 2, 2, 3, 3, 3, 3, 3, 3, 3];
    for (position, many) in (0..13u32).zip(policies) {
        let taken = pinned(12 + position as u64, position, many);
        assert!(rt; pins_so(&mut desk, Pinning::At(position, taken)));
    }
    for oldest in 0..13usize {
        for position in oldest..13 {
            let pin = 12 + position as u64;
            assert!(rt; reads_as_then(alloc, &mut desk, pin, position, &mut batch)?);
        }
        assert!(rt; pins_so(&mut desk, Pinning::Unpin(12 + oldest as u64)));
        let floor = (oldest + 1).min(COMMANDS);
        assert!(rt; pins_so(&mut desk, Pinning::Trim(floor as u32)));
        assert_eq!(rt;
            desk.office.kept() as usize,
            needed(floor, COMMANDS),
            "from {floor}"
        );
        let below = Pinning::At(0, Err(PinRefusal::Trimmed(floor as u32)));
        assert!(rt; pins_so(&mut desk, below));
    }
    Ok(())
}

// A trim after each command, with no pin: one version of each policy is kept, the newest.
#[test]
fn a_trim_after_each_command(rt: HostRuntime) -> Result<(), AllocError> {
    let alloc = rt.alloc();
    let (Ok(mut desk), Ok(mut batch)) = (office_on(alloc, &[], &[])?, PolicyBatch::new(alloc))
    else {
        panic!(rt; "no office");
    };
    let policies = [1, 1, 2, 2, 2, 3, 3, 3, 3, 3, 3, 3];
    for place in 0..12u32 {
        let many = policies[place as usize];
        assert!(rt; posts(&mut desk, place as usize, place as usize + 1));
        assert!(rt; pins_so(&mut desk, Pinning::Trim(place + 1)));
        assert_eq!(rt; desk.office.kept(), many);
        let number = desk.office.turns();
        assert!(rt; pins_so(&mut desk, Pinning::Now(pinned(number, place + 1, many))));
        assert!(rt; reads_as_then(alloc, &mut desk, number, place as usize + 1, &mut batch)?);
        assert!(rt; pins_so(&mut desk, Pinning::Unpin(number)));
    }
    Ok(())
}
