// Several callers at once: each one's postings are in the journal in its order.
ghost use Rattle.std.specs.Prelude.{◌≡◌, ◌≤◌};
ghost use denote.Param.Send.{IsSync};

use crate::shared_callers::{callers_issue, issues, number};
use memory_disk::MemoryDisk;
use outside_io::Disk;
use shared_office::{Office, OfficeCalls, OfficePass, close};
use std::alloc::{AllocError, Global};
use std::sync::Wait;
use std::sync::atomic::{AtomicBool, Ordering};
use std::thread::{Threads, join, yield_now};
use test_rows::assert_rows;
use watcher_set::{NoWatchers, Watching};

// The numbers of the policies that a journal's records issue. The records are 65 bytes long, begin after 18 other
// bytes, and have the policy's number in their bytes 4 to 7.
fn numbers(alloc: Global, journal: &[u8]) -> Result<Vec<u32>, AllocError> {
    let mut numbers = Vec::new(alloc);
    if let Some(records) = journal.get(18..) {
        for record in records.chunks_exact(65) {
            if let [_, _, _, _, a, b, c, d, ..] = record {
                numbers.push(u32::from_be_bytes([*a, *b, *c, *d]))?;
            }
        }
    }
    Ok(numbers)
}

// Whether the policies of this caller are there, in its order, among others.
fn stand_in_order(numbers: &[u32], caller: u16, policies: u16) -> bool {
    let (first, last) = (number(caller, 1), number(caller, policies));
    let mut next = first;
    for id in numbers {
        if first <= *id && *id <= last {
            if *id != next {
                return false;
            }
            next = next.saturating_add(1);
        }
    }
    next == last.saturating_add(1)
}

fn all_stand_in_order(numbers: &[u32], callers: u16, policies: u16) -> bool {
    for caller in 0..callers {
        if !stand_in_order(numbers, caller, policies) {
            return false;
        }
    }
    true
}

#[test]
fn each_callers_postings_in_its_order(rt: HostRuntime) -> Result<(), AllocError> {
    let alloc = rt.alloc();
    let cases = [
        ("two callers", 2, 100, 13_018),
        ("eight callers with a thousand each", 8, 1000, 520_018),
        ("more callers than processors", 32, 50, 104_018),
    ];
    assert_rows!(rt; (name, callers, policies, bytes) in cases => {
        let postings = usize::from(callers) * usize::from(policies);
        let empty = MemoryDisk::new(alloc, Vec::new(alloc), Vec::new(alloc));
        let Ok((office, pass)) = Office::start(alloc, empty, NoWatchers) else {
            panic!(rt; "no office");
        };
        let pass = callers_issue(&rt, &office, pass, 0, callers, policies);
        let (disk, ledger, reports, _) = close(office, pass);
        let numbers = numbers(alloc, disk.bytes())?;
        ledger.cash == 0
            && reports.as_slice().is_empty()
            && disk.bytes().len() == bytes
            && numbers.len() == postings
            && all_stand_in_order(numbers.as_slice(), callers, policies)
    }; "{name}");
    Ok(())
}

// Caller 7 waits until the others are done, for a limited number of looks, and then issues a policy.
fn late<D: Disk, W: Watching, R: Wait>(
    rt: &R,
    office: &Office<D, W>,
    pass: &mut OfficePass<D, W>,
    done: &AtomicBool,
)
    requires { pass.old.turnstile ≡ office.now }
    ensures { (pass.new.turnstile ≡ pass.old.turnstile) × (pass.new.shares ≡ pass.old.shares) }
{
    for _ in 0..100_000_000u32 {
        if done.load(Ordering::SeqCst) {
            break;
        }
        yield_now();
    }
    issues(rt, office, pass, 7, 1);
}

// One caller has to wait until seven others have issued fifty policies each.
fn put_off<D: Disk + Send, W: Watching + Send, R: Threads + Wait + Sync>(
    rt: &R,
    office: &Office<D, W>,
    mut pass: OfficePass<D, W>,
) -> OfficePass<D, W>
    requires { (pass.turnstile ≡ office.now) × (3 ≤ pass.left) × (2 ≤ pass.shares) }
    ensures { (result.turnstile ≡ pass.turnstile) × (result.shares ≡ pass.shares) }
{
    let mut other = office.enter(&mut pass);
    let done = AtomicBool::new(false);
    let done_ref = &done;
    let (mut pass, other) = join(
        rt,
        move || -> OfficePass<D, W>
            requires { IsSync R.row × (pass.turnstile ≡ office.now) }
            ensures { (result.turnstile ≡ pass.turnstile) × (result.shares ≡ pass.shares) }
        {
            let pass = callers_issue(rt, office, pass, 0, 7, 50);
            done_ref.store(true, Ordering::SeqCst);
            pass
        },
        move || -> OfficePass<D, W>
            requires { other.turnstile ≡ office.now }
            ensures { (result.turnstile ≡ other.turnstile) × (result.shares ≡ other.shares) }
        {
            late(rt, office, &mut other, done_ref);
            other
        },
    );
    office.leave(other, &mut pass);
    pass
}

#[test]
fn one_put_off_posts_behind_all_others(rt: HostRuntime) -> Result<(), AllocError> {
    let alloc = rt.alloc();
    let empty = MemoryDisk::new(alloc, Vec::new(alloc), Vec::new(alloc));
    let Ok((office, pass)) = Office::start(alloc, empty, NoWatchers) else {
        panic!(rt; "no office");
    };
    let pass = put_off(&rt, &office, pass);
    let (disk, _, _, _) = close(office, pass);
    let numbers = numbers(alloc, disk.bytes())?;
    assert_eq!(rt; numbers.len(), 351);
    assert_rows!(rt; caller in 0..7 => stand_in_order(numbers.as_slice(), caller, 50); "caller {caller}");
    assert_eq!(rt; numbers[350], 7001);
    Ok(())
}
