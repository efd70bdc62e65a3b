// A store and a journal are reopened: with a checkpoint at the journal's count, with one that is out of date, and
// with none.
ghost use Rattle.std.specs.Prelude.{◌≡◌, ◌<◌, ◌≤◌, IfOk};
ghost use Rattle.checkpoint_store.specs.Checkpoints.{IsSoundSnapshot};

use checkpoint_store::{ReopenFault, Snapshot, Store, reopen};
use memory_disk::{DiskCall, MemoryDisk};
use money_ledgers::Ledger;
use outside_io::{Disk, Steps};
use policy_types::{Command, Plan, Policy, Status};
use posting_journal::Journal;
use record_codec::encode;
use std::alloc::{AllocError, Global};
use std::marker::Brand;
use std::sync::ledger::{Blank, Ledger as StepLedger};
use std::test::Fail;
use test_rows::assert_rows;

// LIFEJRNL, 1, 64 and four zeros, after byte 0.
const JOURNAL_HEAD: &[u8] = b"\x01\x4c\x49\x46\x45\x4a\x52\x4e\x4c\x00\x01\x00\x40\x00\x00\x00\x00";

// LIFECHKP, 1, 48 and four zeros, after the gate.
const CHECKPOINT_HEAD: &[u8] = b"\x4c\x49\x46\x45\x43\x48\x4b\x50\x00\x01\x00\x30\x00\x00\x00\x00";

// 0.00, -400.00, 1000.00 and -600.00; three zeros.
const CLAIMED_BALANCES: [u8; 35] =
    *b"\x00\x00\x00\x00\x00\x00\x00\x00\xff\xff\xff\xff\xff\xff\x63\xc0\x00\x00\x00\x00\x00\x01\x86\xa0\xff\xff\xff\xff\xff\xff\x15\xa0\x00\x00\x00";

// An endowment of 1000.00 for three years at age 0 with a premium of 400.00, number 7001, issued on 2020-01-01, of which
// 600.00 of a claim are outstanding on 2020-07-01.
const CLAIMED_POLICY: [u8; 48] =
    *b"\x00\x00\x1b\x59\x03\x00\x03\x01\x03\x00\x00\x00\x00\x00\x47\x56\x00\x00\x48\x0c\x00\x00\x00\x00\x00\x01\x86\xa0\x00\x00\x00\x00\x00\x00\x9c\x40\x00\x00\x00\x00\x00\x00\xea\x60\x00\x00\x00\x00";

// A number that is no place in a journal.
const NONE: usize = usize::MAX;

// The issue, the premium, the claim, and settlements of 400.00 and 600.00.
pub const SETTLED: [Command; 5] = [
    Command::Issue {
        id: 7001,
        day: 18262,
        plan: Plan::Endowment,
        age: 0,
        years: 3,
        amount: 100_000,
        premium: 40_000,
    },
    Command::Premium {
        id: 7001,
        day: 18262,
        amount: 40_000,
    },
    Command::Claim {
        id: 7001,
        day: 18414,
    },
    Command::Settle {
        id: 7001,
        day: 18444,
        amount: 40_000,
    },
    Command::Settle {
        id: 7001,
        day: 18446,
        amount: 60_000,
    },
];

fn file_of(alloc: Global, parts: &[&[u8]]) -> Result<Vec<u8>, AllocError> {
    let mut bytes = Vec::new(alloc);
    for part in parts {
        bytes.extend_from_slice(part)?;
    }
    Ok(bytes)
}

// A journal of these commands, except that one body spells nothing.
fn journal_of(alloc: Global, commands: &[Command], hidden: usize) -> Result<Vec<u8>, Fail> {
    let mut bytes = Vec::from_slice(alloc, JOURNAL_HEAD)?;
    for (n, command) in commands.iter().enumerate() {
        if !command.is_valid() {
            return Err(Fail::new("not valid"));
        }
        let body = if n == hidden {
            [0; 64]
        } else {
            encode(command)
        };
        bytes.push(1)?;
        bytes.extend_from_slice(&body)?;
    }
    bytes.push(0)?;
    Ok(bytes)
}

// The checkpoint of the first four commands, with another gate, another position, other balances or other policies.
fn checkpoint(
    alloc: Global,
    gate: u8,
    position: u8,
    balances: &[u8; 35],
    policies: &[&[u8]],
) -> Result<Vec<u8>, AllocError> {
    let many = policies.len().min(2) as u8;
    let mut bytes = file_of(
        alloc,
        &[
            &[gate],
            CHECKPOINT_HEAD,
            &[0, 0, 0, position, 0, 0, 0, 0, 0, 0, 0, many],
            balances,
        ],
    )?;
    for policy in policies {
        bytes.extend_from_slice(policy)?;
    }
    Ok(bytes)
}

fn checkpoint_at_four(alloc: Global) -> Result<Vec<u8>, AllocError> {
    checkpoint(alloc, 1, 4, &CLAIMED_BALANCES, &[&CLAIMED_POLICY])
}

fn disk_of(alloc: Global, bytes: &[u8], failing: &[u64]) -> Result<MemoryDisk, AllocError> {
    Ok(MemoryDisk::new(
        alloc,
        Vec::from_slice(alloc, bytes)?,
        Vec::from_slice(alloc, failing)?,
    ))
}

// The result of reopening, and the disks of the store and of the journal.
#[derive(Drop)]
enum Outcome {
    Answered(Result<Snapshot, ReopenFault>, MemoryDisk, MemoryDisk),
    NotStarted,
}

fn reopened<L: StepLedger>(
    alloc: Global,
    second: MemoryDisk,
    first: MemoryDisk,
    blank: Blank,
) -> Outcome
    requires name { blank.name ≡ L.name }
    requires parts { blank.parts ≡ L.parts }
    requires some { 0 < L.parts }
{
    let mut steps: Steps<L> = Steps::open(blank);
    let Ok(mut store) = Store::start(second) else {
        return Outcome::NotStarted;
    };
    let Ok(mut journal) = Journal::start(first) else {
        return Outcome::NotStarted;
    };
    let answer = reopen(alloc, &mut store, &mut journal, &mut steps);
    Outcome::Answered(answer, store.release(), journal.release())
}

fn outcome_of(alloc: Global, second: MemoryDisk, first: MemoryDisk) -> Outcome {
    reopened::<Brand>(alloc, second, first, Blank::new(1))
}

// The snapshot of a journal, read with a store.
fn snapshot_beside<L: StepLedger>(
    alloc: Global,
    second: MemoryDisk,
    first: MemoryDisk,
    blank: Blank,
) -> Result<Snapshot, Fail>
    requires name { blank.name ≡ L.name }
    requires parts { blank.parts ≡ L.parts }
    requires some { 0 < L.parts }
    ensures { IfOk result (λ snapshot. IsSoundSnapshot snapshot) }
{
    let mut steps: Steps<L> = Steps::open(blank);
    let (Ok(mut store), Ok(mut journal)) = (Store::start(second), Journal::start(first)) else {
        return Err(Fail::new("not started"));
    };
    match reopen(alloc, &mut store, &mut journal, &mut steps) {
        Ok(snapshot) => Ok(snapshot),
        Err(_) => Err(Fail::new("not reopened")),
    }
}

// The snapshot of a journal of these commands.
pub fn snapshot_of(alloc: Global, commands: &[Command]) -> Result<Snapshot, Fail>
    ensures { IfOk result (λ snapshot. IsSoundSnapshot snapshot) }
{
    let journal = journal_of(alloc, commands, NONE)?;
    let first = disk_of(alloc, journal.as_slice(), &[])?;
    snapshot_beside::<Brand>(alloc, disk_of(alloc, &[], &[])?, first, Blank::new(1))
}

// How many calls a journal that is started makes.
fn calls_of_start(first: MemoryDisk) -> usize {
    match Journal::start(first) {
        Ok(journal) => journal.release().made().len(),
        Err(_) => 0,
    }
}

// The place of the first byte that these calls read, and the number of bytes that they read in all; they did nothing
// else.
fn bytes_read(calls: &[DiskCall]) -> Option<(u64, usize)> {
    let mut from = u64::MAX;
    let mut all = 0_usize;
    for call in calls {
        let DiskCall::Read { at, many, .. } = call else {
            return None;
        };
        from = from.min(*at);
        all = all.saturating_add(*many);
    }
    Some((from, all))
}

// The books after all five commands.
fn is_settled(snapshot: &Snapshot) -> bool {
    let policies = snapshot.book.as_slice();
    let Ledger {
        cash,
        premiums,
        incurred,
        payable,
    } = snapshot.ledger;
    snapshot.position == 5
        && snapshot.upgrade == 0
        && (cash, premiums, incurred, payable) == (-60_000, -40_000, 100_000, 0)
        && policies.len() == 1
        && policies[0] == settled()
}

fn settled() -> Policy {
    Policy {
        id: 7001,
        plan: Plan::Endowment,
        age: 0,
        years: 3,
        amount: 100_000,
        premium: 40_000,
        issued: 18262,
        last: 18446,
        paid: 1,
        status: Status::Settled,
        outstanding: 0,
    }
}

// Whether the books are those of all commands, after so many bodies were read, and no more of the journal.
fn is_reopened_after(alloc: Global, second: &[u8], bodies: usize) -> Result<bool, Fail>
    requires { bodies ≤ 5 }
{
    let file = journal_of(alloc, &SETTLED, NONE)?;
    let before = calls_of_start(disk_of(alloc, file.as_slice(), &[])?);
    let seconds = disk_of(alloc, second, &[])?;
    let firsts = disk_of(alloc, file.as_slice(), &[])?;
    let Outcome::Answered(answer, seconds, firsts) = outcome_of(alloc, seconds, firsts) else {
        return Ok(false);
    };
    let Ok(snapshot) = answer else {
        return Ok(false);
    };
    let from = 17 + 65 * (5 - bodies as u64);
    Ok(
        is_settled(&snapshot)
            && before <= firsts.made().len()
            && bytes_read(&firsts.made()[before..]) == Some((from, 65 * bodies))
            && seconds.bytes() == second
            && firsts.bytes() == file.as_slice(),
    )
}

// With a checkpoint at four of the five, one body is read, whatever comes before it.
#[test]
fn a_checkpoint_spares_reading(rt: HostRuntime) -> Result<(), Fail> {
    let alloc = rt.alloc();
    let four = checkpoint_at_four(alloc)?;
    assert!(rt; is_reopened_after(alloc, four.as_slice(), 1)?);
    let longer = file_of(alloc, &[four.as_slice(), &[9; 7]])?;
    assert!(rt; is_reopened_after(alloc, longer.as_slice(), 1)?);
    Ok(())
}

// With a file that is no checkpoint, or with one above the count, all five are read.
#[test]
fn what_is_no_checkpoint_is_not_taken(rt: HostRuntime) -> Result<(), Fail> {
    let alloc = rt.alloc();
    let mut broken = CLAIMED_POLICY;
    broken[8] = 1;
    let mut filled = CLAIMED_POLICY;
    filled[47] = 1;
    let policy: &[u8] = &CLAIMED_POLICY;
    let files = [
        Vec::new(alloc),
        file_of(alloc, &[&[1], CHECKPOINT_HEAD])?,
        checkpoint(alloc, 1, 4, &CLAIMED_BALANCES, &[&policy[..47]])?,
        checkpoint(alloc, 0, 4, &CLAIMED_BALANCES, &[policy])?,
        checkpoint(alloc, 2, 4, &CLAIMED_BALANCES, &[policy])?,
        checkpoint(alloc, 1, 6, &CLAIMED_BALANCES, &[policy])?,
        checkpoint(alloc, 1, 0, &CLAIMED_BALANCES, &[policy])?,
        checkpoint(alloc, 1, 4, &CLAIMED_BALANCES, &[policy, policy])?,
        checkpoint(alloc, 1, 4, &CLAIMED_BALANCES, &[&broken])?,
        checkpoint(alloc, 1, 4, &CLAIMED_BALANCES, &[&filled])?,
    ];
    assert_rows!(rt; file in files => is_reopened_after(alloc, file.as_slice(), 5)?; "{:?}", file.as_slice());
    Ok(())
}

// A file with a balance of more than 4 * 10^10 cents a command is no checkpoint either.
#[test]
fn a_balance_out_of_bounds_is_not_taken(rt: HostRuntime) -> Result<(), Fail> {
    let alloc = rt.alloc();
    assert_rows!(rt; balance in [160_000_000_001_i64, -160_000_000_001], account in 0..4_usize => {
        let mut balances = CLAIMED_BALANCES;
        let at = 8 * account;
        balances[at..at + 8].copy_from_slice(&balance.to_be_bytes());
        let file = checkpoint(alloc, 1, 4, &balances, &[&CLAIMED_POLICY])?;
        is_reopened_after(alloc, file.as_slice(), 5)?
    }; "{balance} in account {account}");
    Ok(())
}

// The result of reopening when it fails: the record, or the count of a fault.
fn fault_of(alloc: Global, second: MemoryDisk, first: MemoryDisk) -> Option<ReopenFault> {
    match outcome_of(alloc, second, first) {
        Outcome::Answered(answer, _second, _first) => answer.err(),
        Outcome::NotStarted => None,
    }
}

fn is_bad_record(fault: Option<ReopenFault>, n: u32) -> bool {
    match fault {
        Some(ReopenFault::BadRecord(record)) => record == n,
        _ => false,
    }
}

fn is_first_fault(fault: Option<ReopenFault>) -> bool {
    match fault {
        Some(ReopenFault::DiskFault(count)) => count == 1,
        _ => false,
    }
}

// Record 4 is refused; record 1 spells nothing, which a checkpoint after it hides.
#[test]
fn records_from_the_start_on_are_tested(rt: HostRuntime) -> Result<(), Fail> {
    let alloc = rt.alloc();
    let four = checkpoint_at_four(alloc)?;
    let mut refused = SETTLED;
    refused[4] = SETTLED[1];
    let file = journal_of(alloc, &refused, NONE)?;
    let stray = journal_of(alloc, &SETTLED, 1)?;
    let none: &[u8] = &[];
    let cases = [
        (four.as_slice(), file.as_slice(), 4),
        (none, file.as_slice(), 4),
        (none, stray.as_slice(), 1),
    ];
    assert_rows!(rt; (second, bytes, n) in cases => {
        let (second, first) = (disk_of(alloc, second, &[])?, disk_of(alloc, bytes, &[])?);
        is_bad_record(fault_of(alloc, second, first), n)
    }; "record {n} behind {} bytes", second.len());
    let second = disk_of(alloc, four.as_slice(), &[])?;
    let first = disk_of(alloc, stray.as_slice(), &[])?;
    assert!(rt; fault_of(alloc, second, first).is_none());
    Ok(())
}

// Each call of either disk after its start.
#[test]
fn a_fault_of_either_disk_is_told(rt: HostRuntime) -> Result<(), Fail> {
    let alloc = rt.alloc();
    let four = checkpoint_at_four(alloc)?;
    let file = journal_of(alloc, &SETTLED, NONE)?;
    let before = calls_of_start(disk_of(alloc, file.as_slice(), &[])?) as u64;
    assert_rows!(rt; call in 4..7_u64 => {
        let second = disk_of(alloc, four.as_slice(), &[call])?;
        let first = disk_of(alloc, file.as_slice(), &[])?;
        is_first_fault(fault_of(alloc, second, first))
    }; "call {call}");
    let second = disk_of(alloc, four.as_slice(), &[])?;
    let first = disk_of(alloc, file.as_slice(), &[before.saturating_add(1)])?;
    assert!(rt; is_first_fault(fault_of(alloc, second, first)));
    Ok(())
}
