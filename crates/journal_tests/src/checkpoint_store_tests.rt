// The bytes of a checkpoint, and what faults and crashes leave of one. The files were packed by hand from the layout.
ghost use Rattle.checkpoint_store.specs.Checkpoints.{IsSoundSnapshot};

use crate::reopening_tests::{SETTLED, snapshot_of};
use checkpoint_store::{Snapshot, Store, StoreFault};
use memory_disk::MemoryDisk;
use outside_io::Disk;
use policy_types::{Command, Plan, Policy, Status};
use posting_journal::DiskFault;
use std::alloc::{AllocError, Global};
use std::test::Fail;
use test_rows::assert_rows;

// LIFECHKP, 1, 48 and four zeros; position 4, no upgrade, one policy; 0.00, -400.00, 1000.00 and -600.00; three zeros.
const CLAIMED_FRONT: &[u8] =
    b"\x01\x4c\x49\x46\x45\x43\x48\x4b\x50\x00\x01\x00\x30\x00\x00\x00\x00\x00\x00\x00\x04\x00\x00\x00\x00\x00\x00\x00\x01\x00\x00\x00\x00\x00\x00\x00\x00\xff\xff\xff\xff\xff\xff\x63\xc0\x00\x00\x00\x00\x00\x01\x86\xa0\xff\xff\xff\xff\xff\xff\x15\xa0\x00\x00\x00";

// An endowment of 1000.00 for three years at age 0 with a premium of 400.00, number 7001, issued on 2020-01-01, of which
// 600.00 of a claim are outstanding on 2020-07-01.
const CLAIMED_POLICY: &[u8] =
    b"\x00\x00\x1b\x59\x03\x00\x03\x01\x03\x00\x00\x00\x00\x00\x47\x56\x00\x00\x48\x0c\x00\x00\x00\x00\x00\x01\x86\xa0\x00\x00\x00\x00\x00\x00\x9c\x40\x00\x00\x00\x00\x00\x00\xea\x60\x00\x00\x00\x00";

const CLAIMED: Policy = Policy {
    id: 7001,
    plan: Plan::Endowment,
    age: 0,
    years: 3,
    amount: 100_000,
    premium: 40_000,
    issued: 18262,
    last: 18444,
    paid: 1,
    status: Status::Claimed,
    outstanding: 60_000,
};

// The issue of another policy.
const OTHER: Command = Command::Issue {
    id: 7002,
    day: 18444,
    plan: Plan::Endowment,
    age: 0,
    years: 3,
    amount: 100_000,
    premium: 40_000,
};

fn file_of(alloc: Global, parts: &[&[u8]]) -> Result<Vec<u8>, AllocError> {
    let mut bytes = Vec::new(alloc);
    for part in parts {
        bytes.extend_from_slice(part)?;
    }
    Ok(bytes)
}

// The results of starting a store and of saving, each the count of a fault, and the disk.
fn saved(disk: MemoryDisk, snapshot: &Snapshot) -> (Result<(), u64>, MemoryDisk)
    requires { IsSoundSnapshot snapshot.now }
{
    match Store::start(disk) {
        Ok(mut store) => match store.save(snapshot) {
            Ok(()) => (Ok(()), store.release()),
            Err(DiskFault { count }) => (Err(count), store.release()),
        },
        Err(fault) => {
            let StoreFault { count, disk } = fault;
            (Err(count), disk)
        }
    }
}

#[test]
fn a_snapshot_is_spelled(rt: HostRuntime) -> Result<(), Fail> {
    let alloc = rt.alloc();
    let snapshot = snapshot_of(alloc, &SETTLED[..4])?;
    assert!(rt; snapshot.position == 4 && snapshot.book.as_slice() == [CLAIMED].as_slice());
    let wanted = file_of(alloc, &[CLAIMED_FRONT, CLAIMED_POLICY])?;
    assert_rows!(rt; before in [&[] as &[u8], &[0], &[7; 40], &[1; 40]] => {
        let disk = MemoryDisk::new(alloc, Vec::from_slice(alloc, before)?, Vec::new(alloc));
        let (answer, disk) = saved(disk, &snapshot);
        answer == Ok(()) && disk.bytes() == wanted.as_slice()
    }; "over {before:?}");
    Ok(())
}

// The bytes after the new ones stay.
#[test]
fn a_longer_file_is_not_cut(rt: HostRuntime) -> Result<(), Fail> {
    let alloc = rt.alloc();
    let snapshot = snapshot_of(alloc, &SETTLED[..4])?;
    let before = file_of(alloc, &[&[1; 200]])?;
    let wanted = file_of(alloc, &[CLAIMED_FRONT, CLAIMED_POLICY, &[1; 88]])?;
    let (answer, disk) = saved(MemoryDisk::new(alloc, before, Vec::new(alloc)), &snapshot);
    assert!(rt; answer == Ok(()) && disk.bytes() == wanted.as_slice());
    Ok(())
}

// Whether each image of the disk, at each moment and with each prefix of the unsafe writes, has a closed gate, or is
// one of the two files. The disk made fewer than 32 calls.
fn leaves_only(
    alloc: Global,
    disk: &MemoryDisk,
    old: &[u8],
    new: &[u8],
) -> Result<bool, AllocError> {
    for moment in 0..32 {
        if !leaves_at(alloc, disk, moment, old, new)? {
            return Ok(false);
        }
    }
    Ok(disk.calls() < 32)
}

fn leaves_at(
    alloc: Global,
    disk: &MemoryDisk,
    moment: u32,
    old: &[u8],
    new: &[u8],
) -> Result<bool, AllocError> {
    if moment > disk.calls() {
        return Ok(true);
    }
    for (keep, reached) in [(0, 0), (1, 1), (2, 2), (3, 30), (3, 63), (3, 64), (3, 100)] {
        let whole = disk.image(alloc, moment, keep)?;
        let torn = disk.torn_image(alloc, moment, reached)?;
        if !is_closed_or(whole.as_slice(), old, new) || !is_closed_or(torn.as_slice(), old, new) {
            return Ok(false);
        }
    }
    Ok(true)
}

fn is_closed_or(file: &[u8], old: &[u8], new: &[u8]) -> bool {
    file.is_empty() || file[0] != 1 || file == old || file == new
}

// Sync, length, gate, then the gate and a sync, the head, the policies and a sync, the gate and a sync.
#[test]
fn a_fault_or_a_crash_leaves_the_old_or_the_new(rt: HostRuntime) -> Result<(), Fail> {
    let alloc = rt.alloc();
    let old = file_of(alloc, &[CLAIMED_FRONT, CLAIMED_POLICY])?;
    let mut commands = SETTLED;
    commands[4] = OTHER;
    let snapshot = snapshot_of(alloc, &commands)?;
    let (answer, disk) = saved(
        MemoryDisk::new(
            alloc,
            Vec::from_slice(alloc, old.as_slice())?,
            Vec::new(alloc),
        ),
        &snapshot,
    );
    assert!(rt; answer == Ok(()) && disk.calls() == 10);
    let new = Vec::from_slice(alloc, disk.bytes())?;
    assert!(rt; new.len() == 160);
    assert!(rt; leaves_only(alloc, &disk, old.as_slice(), new.as_slice())?);
    assert_rows!(rt; call in 1..11_u64 => {
        let failing = Vec::from_slice(alloc, &[call])?;
        let disk = MemoryDisk::new(alloc, Vec::from_slice(alloc, old.as_slice())?, failing);
        let (answer, disk) = saved(disk, &snapshot);
        answer == Err(1)
            && disk.faults() == 1
            && leaves_only(alloc, &disk, old.as_slice(), new.as_slice())?
    }; "call {call}");
    Ok(())
}

// A save after a fault in each call of an earlier one.
#[test]
fn a_save_after_a_fault_is_whole(rt: HostRuntime) -> Result<(), Fail> {
    let alloc = rt.alloc();
    let snapshot = snapshot_of(alloc, &SETTLED[..4])?;
    let wanted = file_of(alloc, &[CLAIMED_FRONT, CLAIMED_POLICY])?;
    assert_rows!(rt; call in 4..11_u64 => {
        let failing = Vec::from_slice(alloc, &[call])?;
        let before = file_of(alloc, &[CLAIMED_FRONT, CLAIMED_POLICY])?;
        let Ok(mut store) = Store::start(MemoryDisk::new(alloc, before, failing)) else {
            return Err(Fail::new("not started"));
        };
        let saves = (store.save(&snapshot).is_ok(), store.save(&snapshot).is_ok());
        let disk = store.release();
        saves == (false, true)
            && disk.bytes() == wanted.as_slice()
            && leaves_only(alloc, &disk, wanted.as_slice(), wanted.as_slice())?
    }; "call {call}");
    Ok(())
}

// A gate that is known to be closed isn't written first: that saves two calls.
#[test]
fn a_closed_gate_is_left(rt: HostRuntime) -> Result<(), Fail> {
    let alloc = rt.alloc();
    let snapshot = snapshot_of(alloc, &SETTLED[..4])?;
    let cases: [(&[u8], u32); 3] = [(&[0], 8), (&[1], 10), (&[], 9)];
    assert_rows!(rt; (before, calls) in cases => {
        let disk = MemoryDisk::new(alloc, Vec::from_slice(alloc, before)?, Vec::new(alloc));
        let (answer, disk) = saved(disk, &snapshot);
        answer == Ok(()) && disk.calls() == calls
    }; "over {before:?}");
    Ok(())
}
