// Lanes of one office. The reserves are worked out by hand from the plan and the table: for an endowment of 1000.00
// for three years at age 0, after one year, 127.22 to 127.23. Each run has memory, so none may report that it was
// refused.
use crate::lane_gates::InTurn;
use crate::lane_trials::{run_on, run_watched};
use crate::line_words::{Told, Written};
use crate::offices::{ONE_YEAR, issue};
use outside_io::OpenGate;
use policy_types::{At, Command, Lane, Line, Lines, PinRefusal, Plan, Report, Watcher};
use std::alloc::{AllocError, Global};
use std::test::Fail;
use test_rows::assert_rows;
use watcher_set::{CountWatcher, PremiumWatcher, Watchers};

/// A lane of these lines.
pub(crate) fn lane(alloc: Global, number: u8, lines: &[Line]) -> Result<Lane, AllocError> {
    Ok(Lane {
        number,
        lines: Lines::new(lines.to_vec(alloc)?),
    })
}

// Whether the turns rise, each posting has the next position, and each valuation has the position of the postings
// before it, with as many policies.
// as many policies.
fn are_as_one(lines: &[Written]) -> bool {
    let mut accepted = 0u32;
    let mut least = 0u64;
    for line in lines {
        let right = match line.told {
            Told::Accepted(position) => position == accepted.wrapping_add(1),
            Told::Valued(position, policies) => position == accepted
                && policies == u64::from(accepted),
            _ => false,
        };
        if !right || line.turn < least {
            return false;
        }
        if let Told::Accepted(position) = line.told {
            accepted = position;
        }
        least = line.turn.wrapping_add(1);
    }
    true
}

// How many policies a lane issues in order, from this number on.
fn count_issues(lines: &[Written], lane: u8, first: u32) -> u32 {
    let mut next = first;
    for line in lines {
        if line.lane == lane && line.command == Some(issue(next)) {
            next = next.wrapping_add(1);
        }
    }
    next.wrapping_sub(first)
}

// Whether exactly these lines were answered, each by its lane and in this way.
fn are_told(lines: &[Written], dues: &[(u8, Told)]) -> bool {
    if lines.len() != dues.len() {
        return false;
    }
    for (line, due) in lines.iter().zip(dues) {
        if (line.lane, line.told) != *due {
            return false;
        }
    }
    true
}

const VALUE_NOW: Line = Line::Value {
    on: ONE_YEAR,
    at: At::Now,
    workers: 1,
};

pub(crate) fn claim(id: u32) -> Line {
    Line::Post(Command::Claim { id, day: 18_276 })
}

const POSTED: &[Line] = &[
    Line::Post(Command::Claim { id: 1, day: 18_276 }),
    Line::Trim,
    Line::Post(Command::Issue {
        id: 1_201,
        day: 18_262,
        plan: Plan::Endowment,
        age: 0,
        years: 3,
        amount: 100_000,
        premium: 40_000,
    }),
    Line::Post(Command::Claim { id: 2, day: 18_276 }),
    Line::Trim,
    Line::Post(Command::Claim {
        id: 1_201,
        day: 18_276,
    }),
];

const BETWEEN: &[(u8, Told)] = &[
    (2, Told::Valued(1_200, 1_200)),
    (1, Told::Accepted(1_201)),
    (1, Told::Trimmed(1_200)),
    (1, Told::Accepted(1_202)),
    (1, Told::Accepted(1_203)),
    (1, Told::Trimmed(1_200)),
    (1, Told::Accepted(1_204)),
];

#[test]
fn a_line_between_each_two_batches(rt: HostRuntime) -> Result<(), Fail> {
    let alloc = rt.alloc();
    let lanes = [lane(alloc, 1, POSTED)?, lane(alloc, 2, &[VALUE_NOW])?];
    let gate = InTurn::new(5);
    let run = run_on(&rt, alloc, 1_200, lanes.as_slice(), &gate)?;
    assert!(rt; are_told(run.lines.as_slice(), BETWEEN));
    assert_eq!(rt; gate.missed(), 0);
    Ok(())
}

// A lane that issues two hundred policies between two valuations.
fn busy_lane(alloc: Global, number: u8) -> Result<Lane, AllocError> {
    let first = u32::from(number) * 1_000;
    let mut lines = Vec::new(alloc);
    lines.push(VALUE_NOW)?;
    for id in first..first + 200 {
        lines.push(Line::Post(issue(id)))?;
    }
    lines.push(VALUE_NOW)?;
    Ok(Lane {
        number,
        lines: Lines::new(lines),
    })
}

#[test]
fn eight_busy_lanes(rt: HostRuntime) -> Result<(), Fail> {
    let alloc = rt.alloc();
    let mut lanes = Vec::new(alloc);
    for number in 1..=8u8 {
        lanes.push(busy_lane(alloc, number)?)?;
    }
    let run = run_on(&rt, alloc, 0, lanes.as_slice(), &OpenGate)?;
    let lines = run.lines.as_slice();
    assert_eq!(rt; lines.len(), 8 * 202);
    assert!(rt; are_as_one(lines));
    assert_rows!(rt; number in 1..=8u8 =>
        count_issues(lines, number, u32::from(number) * 1_000), 200; "lane {number}");
    Ok(())
}

const ASKED: &[Line] = &[
    Line::Value {
        on: ONE_YEAR,
        at: At::Position(6),
        workers: 1,
    },
    Line::Value {
        on: ONE_YEAR,
        at: At::Position(4),
        workers: 1,
    },
    Line::Trim,
    Line::Value {
        on: ONE_YEAR,
        at: At::Position(4),
        workers: 1,
    },
    Line::Value {
        on: ONE_YEAR,
        at: At::Position(5),
        workers: 1,
    },
    Line::Trim,
    Line::Trim,
    Line::Post(Command::Claim { id: 5, day: 18_276 }),
    Line::Trim,
    Line::Value {
        on: ONE_YEAR,
        at: At::Position(5),
        workers: 1,
    },
];

const TOLD: &[(u8, Told)] = &[
    (7, Told::Refused(PinRefusal::Ahead(5))),
    (7, Told::Valued(4, 4)),
    (7, Told::Trimmed(5)),
    (7, Told::Refused(PinRefusal::Trimmed(5))),
    (7, Told::Valued(5, 5)),
    (7, Told::Trimmed(5)),
    (7, Told::Trimmed(5)),
    (7, Told::Accepted(6)),
    (7, Told::Trimmed(6)),
    (7, Told::Refused(PinRefusal::Trimmed(6))),
];

#[test]
fn trims_and_refused_valuations(rt: HostRuntime) -> Result<(), Fail> {
    let lanes = [lane(rt.alloc(), 7, ASKED)?];
    let run = run_on(&rt, rt.alloc(), 5, lanes.as_slice(), &OpenGate)?;
    assert!(rt; are_told(run.lines.as_slice(), TOLD));
    Ok(())
}

const REPORTS: &[Report] = &[
    Report { seen: 3, tally: 3 },
    Report {
        seen: 16,
        tally: 320_000,
    },
];

#[test]
fn watchers_of_eight_lanes(rt: HostRuntime) -> Result<(), Fail> {
    let alloc = rt.alloc();
    let mut boxes: Vec<Box<dyn Watcher + Send>> = Vec::new(alloc);
    boxes.push(Box::new(alloc, CountWatcher::new(3))?)?;
    boxes.push(Box::new(alloc, PremiumWatcher::new())?)?;
    let mut lanes = Vec::new(alloc);
    for number in 1..=8u8 {
        let id = u32::from(number);
        let paid = Line::Post(Command::Premium {
            id,
            day: 18_262,
            amount: 40_000,
        });
        lanes.push(lane(alloc, number, &[Line::Post(issue(id)), paid])?)?;
    }
    let (run, reports) = run_watched(
        &rt,
        alloc,
        Watchers::new(boxes),
        0,
        lanes.as_slice(),
        &OpenGate,
    )?;
    let lines = run.lines.as_slice();
    assert_eq!(rt; lines.len(), 16);
    assert!(rt; are_as_one(lines));
    assert!(rt; reports.as_slice() == REPORTS);
    Ok(())
}

#[test]
fn no_lanes_and_empty_lanes(rt: HostRuntime) -> Result<(), Fail> {
    let alloc = rt.alloc();
    let none = run_on(&rt, alloc, 0, &[], &OpenGate)?;
    assert_eq!(rt; none.lines.len(), 0);
    assert_eq!(rt; none.callers, 0);
    let lanes = [lane(alloc, 3, &[])?, lane(alloc, 7, &[Line::Trim])?];
    let one = run_on(&rt, alloc, 1, lanes.as_slice(), &OpenGate)?;
    assert_eq!(rt; one.callers, 2);
    let [trim] = one.lines.as_slice() else {
        panic!(rt; "one line");
    };
    assert_eq!(rt; (trim.lane, trim.told), (7, Told::Trimmed(1)));
    Ok(())
}
