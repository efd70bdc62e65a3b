// Postings and openings that fail because of the disk or of a journal's records.
use crate::office_desk::{Posting, answers, office_on};
use crate::policies::NEW_YEAR;
use memory_disk::MemoryDisk;
use office_state::{Answer, StartCause};
use policy_types::{Command, Plan};
use posting_journal::Journal;
use record_codec::encode;
use std::alloc::{AllocError, Global};
use test_rows::assert_rows;

const ISSUED: Command = Command::Issue {
    id: 7001,
    day: NEW_YEAR,
    plan: Plan::Endowment,
    age: 0,
    years: 3,
    amount: 100_000,
    premium: 40_000,
};

// Six issues, the second sync of the fifth failing.
const FAULTING: &[Posting] = &[
    Posting {
        command: Command::Issue {
            id: 1,
            day: NEW_YEAR,
            plan: Plan::Endowment,
            age: 0,
            years: 3,
            amount: 100_000,
            premium: 40_000,
        },
        answer: Answer::Accepted(1),
    },
    Posting {
        command: Command::Issue {
            id: 2,
            day: NEW_YEAR,
            plan: Plan::Endowment,
            age: 0,
            years: 3,
            amount: 100_000,
            premium: 40_000,
        },
        answer: Answer::Accepted(2),
    },
    Posting {
        command: Command::Issue {
            id: 3,
            day: NEW_YEAR,
            plan: Plan::Endowment,
            age: 0,
            years: 3,
            amount: 100_000,
            premium: 40_000,
        },
        answer: Answer::Accepted(3),
    },
    Posting {
        command: Command::Issue {
            id: 4,
            day: NEW_YEAR,
            plan: Plan::Endowment,
            age: 0,
            years: 3,
            amount: 100_000,
            premium: 40_000,
        },
        answer: Answer::Accepted(4),
    },
    Posting {
        command: Command::Issue {
            id: 5,
            day: NEW_YEAR,
            plan: Plan::Endowment,
            age: 0,
            years: 3,
            amount: 100_000,
            premium: 40_000,
        },
        answer: Answer::DiskFault(1),
    },
    Posting {
        command: Command::Issue {
            id: 6,
            day: NEW_YEAR,
            plan: Plan::Endowment,
            age: 0,
            years: 3,
            amount: 100_000,
            premium: 40_000,
        },
        answer: Answer::Accepted(5),
    },
];

// The numbers of the policies that an office on these bytes shows.
fn ids(alloc: Global, bytes: &[u8]) -> Result<Vec<u32>, AllocError> {
    let mut ids = Vec::new(alloc);
    let Ok(desk) = office_on(alloc, bytes, &[])? else {
        return Ok(ids);
    };
    for index in 0..desk.office.policies(desk.office.count()) {
        ids.push(desk.office.policy(index, desk.office.count()).id)?;
    }
    Ok(ids)
}

// Whether the office replies so and has so many commands; and the numbers of the policies when it is opened again.
fn opens_to(
    alloc: Global,
    failing: &[u64],
    postings: &[Posting],
    count: u32,
) -> Result<Vec<u32>, AllocError> {
    let Ok(mut desk) = office_on(alloc, &[], failing)? else {
        return Ok(Vec::new(alloc));
    };
    if !answers(&mut desk, postings) || desk.office.count() != count {
        return Ok(Vec::new(alloc));
    }
    let (disk, _, _, _) = desk.office.close();
    ids(alloc, disk.bytes())
}

// The fifth is neither among the accepted ones nor among those at the next opening.
#[test]
fn a_posting_that_faults(rt: HostRuntime) -> Result<(), AllocError> {
    // A creation makes 9 calls, a posting 4.
    let ids = opens_to(rt.alloc(), &[29], FAULTING, 5)?;
    assert!(rt; ids.as_slice() == [1, 2, 3, 4, 6].as_slice());
    Ok(())
}

const SETTLED_EARLY: Command = Command::Settle {
    id: 7001,
    day: 18444,
    amount: 1,
};

// The commands of a journal's records, and the cause for which no office is opened on them.
const REFUSED: &[(&[Command], StartCause)] = &[
    (&[ISSUED, ISSUED], StartCause::BadRecord(1)),
    (&[SETTLED_EARLY, ISSUED], StartCause::BadRecord(0)),
    (&[ISSUED, SETTLED_EARLY], StartCause::BadRecord(1)),
];

fn append(journal: &mut Journal<MemoryDisk>, body: &[u8; 64]) -> bool {
    if journal.count() >= 4_000_000 || !journal.is_clean() {
        return false;
    }
    journal.append(body).is_ok()
}

fn append_all(journal: &mut Journal<MemoryDisk>, commands: &[Command]) -> bool {
    for command in commands {
        if !command.is_valid() || !append(journal, &encode(command)) {
            return false;
        }
    }
    true
}

// Whether no office is opened on a journal of these commands, and maybe a body of zeros, for this cause.
fn is_refused(
    alloc: Global,
    commands: &[Command],
    zeros: bool,
    cause: StartCause,
) -> Result<bool, AllocError> {
    let empty = MemoryDisk::new(alloc, Vec::new(alloc), Vec::new(alloc));
    let Ok(mut journal) = Journal::start(empty) else {
        return Ok(false);
    };
    if !append_all(&mut journal, commands) || zeros && !append(&mut journal, &[0; 64]) {
        return Ok(false);
    }
    let disk = journal.release();
    match office_on(alloc, disk.bytes(), &[])? {
        Ok(_) => Ok(false),
        Err(found) => Ok(found == cause),
    }
}

// Journals whose records aren't all of accepted commands.
#[test]
fn records_that_are_refused(rt: HostRuntime) -> Result<(), AllocError> {
    assert_rows!(rt; (row, (commands, cause)) in REFUSED.iter().enumerate() =>
        is_refused(rt.alloc(), commands, false, *cause)?; "row {row}");
    assert!(rt; is_refused(rt.alloc(), &[ISSUED], true, StartCause::BadRecord(1))?);
    Ok(())
}

// A disk that fails while an office is opened.
#[test]
fn openings_that_fault(rt: HostRuntime) -> Result<(), AllocError> {
    assert_rows!(rt; call in 1..10u64 => {
        let opened = office_on(rt.alloc(), &[], &[call])?;
        matches!(opened, Err(StartCause::DiskFault(1)))
    }; "call {call}");
    Ok(())
}
