// Watchers of an office: one that is refused memory, and the reports of others.
ghost use Rattle.std.specs.Prelude.{ℕ, [], IfOk};

use crate::office_desk::{
    Posting, accepted, answers, lacks_memory, office_on, policy, refused, shows, watched_on,
};
use crate::policies::{NEW_YEAR, issue, premium};
use money_ledgers::Ledger;
use office_state::Answer;
use policy_types::{Command, Plan, Refusal, Report, Status, Watcher};
use std::alloc::{AllocError, Global};
use watcher_set::{CountWatcher, PremiumWatcher, Reports, TightWatcher, Watchers, Watching};

// A set with one watcher, which has no capacity for the second command.
fn tight(alloc: Global) -> Result<Watchers<TightWatcher>, AllocError>
    ensures { IfOk result (λ watchers. (before : ℕ) → ⟦<Watchers<TightWatcher> as Watching>⟧.told watchers before []) }
{
    let mut auditors = Vec::new(alloc);
    auditors.push(TightWatcher::new(alloc, 2))?;
    Ok(Watchers::new(auditors))
}

// The watcher is refused memory at the second of three postings: that changes nothing, and the third has the next
// position.
#[test]
fn watchers_without_memory(rt: HostRuntime) -> Result<(), AllocError> {
    let alloc = rt.alloc();
    let Ok(mut desk) = watched_on(alloc, &[], &[], tight(alloc)?)? else {
        panic!(rt; "no office");
    };
    let first = policy(7001, NEW_YEAR, NEW_YEAR, 0, Status::InForce, 0);
    let other = policy(3, NEW_YEAR, NEW_YEAR, 0, Status::InForce, 0);
    let nothing = Ledger {
        cash: 0,
        premiums: 0,
        incurred: 0,
        payable: 0,
    };
    assert!(rt; answers(&mut desk, &[accepted(issue(7001, NEW_YEAR), 1)]));
    assert!(rt; lacks_memory(&mut desk, &premium(NEW_YEAR)));
    assert!(rt; desk.office.count() == 1 && shows(&desk, 1, &[first]));
    assert!(rt; desk.office.ledger() == nothing && desk.office.turns() == 2);
    assert!(rt; answers(&mut desk, &[accepted(issue(3, NEW_YEAR), 2)]));
    let (disk, _, _, _) = desk.office.close();
    let Ok(again) = office_on(alloc, disk.bytes(), &[])? else {
        panic!(rt; "not opened again");
    };
    assert!(rt; again.office.count() == 2 && shows(&again, 2, &[first, other]));
    Ok(())
}

// A policy at whose issue the watcher is refused memory, and one whose first premium is refused, leave no trace: they
// are neither in the book nor in the order of issue.
#[test]
fn postings_that_leave_no_trace(rt: HostRuntime) -> Result<(), AllocError> {
    let alloc = rt.alloc();
    let Ok(mut desk) = watched_on(alloc, &[], &[], tight(alloc)?)? else {
        panic!(rt; "no office");
    };
    let first = policy(1, NEW_YEAR, NEW_YEAR, 0, Status::InForce, 0);
    let second = policy(2, NEW_YEAR, NEW_YEAR, 0, Status::InForce, 0);
    let third = policy(3, NEW_YEAR, NEW_YEAR, 0, Status::InForce, 0);
    assert!(rt; answers(&mut desk, &[accepted(issue(1, NEW_YEAR), 1)]));
    assert!(rt; lacks_memory(&mut desk, &issue(3, NEW_YEAR)));
    assert!(rt; desk.office.kept() == 1 && shows(&desk, 1, &[first]));
    assert!(rt; answers(&mut desk, &[refused(premium(NEW_YEAR), Refusal::Unknown)]));
    assert!(rt; desk.office.kept() == 1 && shows(&desk, 1, &[first]));
    let rest = [
        accepted(issue(2, NEW_YEAR), 2),
        accepted(issue(3, NEW_YEAR), 3),
    ];
    assert!(rt; answers(&mut desk, &rest));
    assert!(rt; desk.office.kept() == 3 && shows(&desk, 1, &[first]));
    assert!(rt; shows(&desk, 2, &[first, second]) && shows(&desk, 3, &[first, second, third]));
    Ok(())
}

// The reports of watchers at the end of an office that replies so.
fn reports_after<W: Watching>(
    alloc: Global,
    failing: &[u64],
    watchers: W,
    postings: &[Posting],
) -> Result<Option<Reports>, AllocError>
    requires { (before : ℕ) → W.told watchers before [] }
{
    let Ok(mut desk) = watched_on(alloc, &[], failing, watchers)? else {
        return Ok(None);
    };
    if !answers(&mut desk, postings) {
        return Ok(None);
    }
    let (_, _, reports, _) = desk.office.close();
    Ok(Some(reports))
}

// Five issues and a premium are accepted, an issue is refused and another meets a fault.
const HEARD: &[Posting] = &[
    Posting {
        command: Command::Issue {
            id: 7001,
            day: NEW_YEAR,
            plan: Plan::Endowment,
            age: 0,
            years: 3,
            amount: 100_000,
            premium: 40_000,
        },
        answer: Answer::Accepted(1),
    },
    Posting {
        command: Command::Issue {
            id: 2,
            day: NEW_YEAR,
            plan: Plan::Endowment,
            age: 0,
            years: 3,
            amount: 100_000,
            premium: 40_000,
        },
        answer: Answer::Accepted(2),
    },
    Posting {
        command: Command::Issue {
            id: 2,
            day: NEW_YEAR,
            plan: Plan::Endowment,
            age: 0,
            years: 3,
            amount: 100_000,
            premium: 40_000,
        },
        answer: Answer::Refused(Refusal::Taken),
    },
    Posting {
        command: Command::Issue {
            id: 3,
            day: NEW_YEAR,
            plan: Plan::Endowment,
            age: 0,
            years: 3,
            amount: 100_000,
            premium: 40_000,
        },
        answer: Answer::Accepted(3),
    },
    Posting {
        command: Command::Premium {
            id: 7001,
            day: NEW_YEAR,
            amount: 40_000,
        },
        answer: Answer::Accepted(4),
    },
    Posting {
        command: Command::Issue {
            id: 4,
            day: NEW_YEAR,
            plan: Plan::Endowment,
            age: 0,
            years: 3,
            amount: 100_000,
            premium: 40_000,
        },
        answer: Answer::Accepted(5),
    },
    Posting {
        command: Command::Issue {
            id: 5,
            day: NEW_YEAR,
            plan: Plan::Endowment,
            age: 0,
            years: 3,
            amount: 100_000,
            premium: 40_000,
        },
        answer: Answer::DiskFault(1),
    },
    Posting {
        command: Command::Issue {
            id: 6,
            day: NEW_YEAR,
            plan: Plan::Endowment,
            age: 0,
            years: 3,
            amount: 100_000,
            premium: 40_000,
        },
        answer: Answer::Accepted(6),
    },
];

const REPORTS: &[Report] = &[
    Report { seen: 3, tally: 3 },
    Report {
        seen: 6,
        tally: 40_000,
    },
];

// One watcher counts to three, the other notes all six.
#[test]
fn reports_of_two_watchers(rt: HostRuntime) -> Result<(), AllocError> {
    let alloc = rt.alloc();
    let mut boxes: Vec<Box<dyn Watcher + Send>> = Vec::new(alloc);
    boxes.push(Box::new(alloc, CountWatcher::new(3))?)?;
    boxes.push(Box::new(alloc, PremiumWatcher::new())?)?;
    // A creation makes 9 calls, a posting 4.
    let Some(reports) = reports_after(alloc, &[33], Watchers::new(boxes), HEARD)? else {
        panic!(rt; "not answered so");
    };
    assert!(rt; reports.as_slice() == REPORTS);
    Ok(())
}
