// A caller's valuation, between the parts of which another caller posts.
ghost use Rattle.std.specs.Prelude.{◌≡◌, ◌≤◌};
ghost use denote.Param.Send.{IsSync};

use crate::offices::{ONE_YEAR, flat_basis, issue, issue_all, post};
use crate::snapshot_value_tests::{inforce, is_of, terminal};
use basis_book::Basis;
use memory_disk::MemoryDisk;
use outside_io::{Disk, Gate, OpenGate};
use policy_types::{At, Command, Status};
use shared_office::{Office, OfficeCalls, OfficePass, close};
use snapshot_value::value;
use std::alloc::Global;
use std::sync::Wait;
use std::sync::atomic::{AtomicBool, Ordering};
use std::test::Fail;
use std::thread::{Threads, join, yield_now};
use watcher_set::{NoWatchers, Watching};

/// A gate that lets another caller go on after the first part, and waits until it is done.
#[derive(Drop)]
pub(crate) struct Meeting {
    pub(crate) reached: AtomicBool,
    pub(crate) done: AtomicBool,
}

impl Gate for Meeting {
    fn at<R: Wait>(&self, rt: &R, _lane: u8, step: u32) {
        if step == 1 {
            self.reached.store(true, Ordering::SeqCst);
            wait_for(rt, &self.done);
        }
    }
}

pub(crate) fn wait_for<R: Wait>(rt: &R, flag: &AtomicBool) {
    for _ in rt.forever() {
        if flag.load(Ordering::SeqCst) {
            break;
        }
        yield_now();
    }
}

// Whether the newest position is valued as that of three hundred issues.
fn value_issues<D: Disk, W: Watching, R: Threads + Wait + Sync>(
    rt: &R,
    alloc: Global,
    office: &Office<D, W>,
    pass: &mut OfficePass<D, W>,
    basis: &Basis,
    meeting: &Meeting,
) -> bool
    requires { pass.old.turnstile ≡ office.now }
    ensures { (pass.new.turnstile ≡ pass.old.turnstile) × (pass.new.shares ≡ pass.old.shares) }
{
    if pass.left() < 16_000 {
        meeting.reached.store(true, Ordering::SeqCst);
        return false;
    }
    let answer = value(
        rt,
        alloc,
        office,
        pass,
        terminal(basis, ONE_YEAR, 1),
        At::Now,
        1,
        meeting,
    );
    meeting.reached.store(true, Ordering::SeqCst);
    is_of(&answer, 300, 300, 300, &inforce(1, 1, 12_722, 12_723))
}

// Lapses the last of the policies and issues another, when the first part was read.
fn post_between<D: Disk, W: Watching, R: Wait>(
    rt: &R,
    office: &Office<D, W>,
    pass: &mut OfficePass<D, W>,
    meeting: &Meeting,
)
    requires { pass.old.turnstile ≡ office.now }
    ensures { (pass.new.turnstile ≡ pass.old.turnstile) × (pass.new.shares ≡ pass.old.shares) }
{
    wait_for(rt, &meeting.reached);
    post(
        rt,
        office,
        pass,
        &Command::Lapse {
            id: 300,
            day: 18_660,
        },
    );
    post(rt, office, pass, &issue(301));
    meeting.done.store(true, Ordering::SeqCst);
}

// Both callers at once. Returns whether the valuation came out right.
fn both<D: Disk + Send, W: Watching + Send, R: Threads + Wait + Sync>(
    rt: &R,
    alloc: Global,
    office: &Office<D, W>,
    mut pass: OfficePass<D, W>,
    basis: &Basis,
) -> (OfficePass<D, W>, bool)
    requires { (pass.turnstile ≡ office.now) × (3 ≤ pass.left) × (2 ≤ pass.shares) }
    ensures { (result.0.turnstile ≡ pass.turnstile) × (result.0.shares ≡ pass.shares) }
{
    let mut other = office.enter(&mut pass);
    let meeting = Meeting {
        reached: AtomicBool::new(false),
        done: AtomicBool::new(false),
    };
    let meeting_ref = &meeting;
    let ((mut pass, right), other) = join(
        rt,
        move || -> (OfficePass<D, W>, bool)
            requires { pass.turnstile ≡ office.now }
            ensures { (result.0.turnstile ≡ pass.turnstile) × (result.0.shares ≡ pass.shares) }
        {
            let right = value_issues(rt, alloc, office, &mut pass, basis, meeting_ref);
            (pass, right)
        },
        move || -> OfficePass<D, W>
            requires { other.turnstile ≡ office.now }
            ensures { (result.turnstile ≡ other.turnstile) × (result.shares ≡ other.shares) }
        {
            post_between(rt, office, &mut other, meeting_ref);
            other
        },
    );
    office.leave(other, &mut pass);
    (pass, right)
}

// How many policies there are at last, and the status of the one that lapsed.
fn at_last<D: Disk, W: Watching, R: Threads + Wait + Sync>(
    rt: &R,
    alloc: Global,
    office: &Office<D, W>,
    pass: &mut OfficePass<D, W>,
    basis: &Basis,
) -> Option<(usize, Status)>
    requires { pass.old.turnstile ≡ office.now }
    ensures { (pass.new.turnstile ≡ pass.old.turnstile) × (pass.new.shares ≡ pass.old.shares) }
{
    if pass.left() < 16_000 {
        return None;
    }
    let now = value(
        rt,
        alloc,
        office,
        pass,
        terminal(basis, ONE_YEAR, 1),
        At::Now,
        1,
        &OpenGate,
    );
    let Ok(newest) = &now.answer else {
        return None;
    };
    let lapsed = newest.rows.as_slice().get(299)?;
    Some((newest.rows.as_slice().len(), lapsed.status))
}

#[test]
fn postings_between_the_parts_change_no_row(rt: HostRuntime) -> Result<(), Fail> {
    let alloc = rt.alloc();
    let basis = flat_basis(alloc)?;
    let empty = MemoryDisk::new(alloc, Vec::new(alloc), Vec::new(alloc));
    let Ok((office, mut pass)) = Office::start(alloc, empty, NoWatchers) else {
        return Err("an office".into());
    };
    issue_all(&rt, &office, &mut pass, 300);
    if pass.left() < 3 {
        panic!(rt; "no turns");
    }
    let (mut pass, right) = both(&rt, alloc, &office, pass, &basis);
    let last = at_last(&rt, alloc, &office, &mut pass, &basis);
    close(office, pass);
    assert!(rt; right);
    assert_eq!(rt; last, Some((301, Status::Lapsed)));
    Ok(())
}
