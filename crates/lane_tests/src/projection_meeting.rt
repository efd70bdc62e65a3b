// A caller's projection, between the parts of which another caller posts a claim.
ghost use Rattle.std.specs.Prelude.{◌≡◌, ◌≤◌};

use crate::offices::{flat_basis, issue_all, post};
use crate::projection_tests::{Case, FIRST_YEAR, is_as_expected};
use crate::snapshot_meeting::{Meeting, wait_for};
use basis_book::Basis;
use cash_projection::project;
use memory_disk::MemoryDisk;
use outside_io::{Disk, Gate, OpenGate};
use policy_types::Command;
use shared_office::{Office, OfficeCalls, OfficePass, close};
use std::alloc::Global;
use std::sync::Wait;
use std::sync::atomic::{AtomicBool, Ordering};
use std::test::Fail;
use std::thread::{Threads, join};
use watcher_set::{NoWatchers, Watching};

/// Three hundred issues.
pub(crate) const ISSUED: Case = Case {
    position: 300,
    policies: 300,
    insured: 300,
    owing: 300,
    years: 3,
};
// And then a claim for one of them.
const CLAIMED: Case = Case {
    position: 301,
    policies: 300,
    insured: 299,
    owing: 299,
    years: 3,
};

/// Whether the newest position is projected as expected.
pub(crate) fn project_issues<D: Disk, W: Watching, G: Gate, R: Threads + Wait + Sync>(
    rt: &R,
    alloc: Global,
    office: &Office<D, W>,
    pass: &mut OfficePass<D, W>,
    basis: &Basis,
    case: &Case,
    gate: &G,
) -> bool
    requires { pass.old.turnstile ≡ office.now }
    ensures { (pass.new.turnstile ≡ pass.old.turnstile) × (pass.new.shares ≡ pass.old.shares) }
{
    if pass.left() < 16_000 {
        return false;
    }
    let projected = project(rt, alloc, office, pass, basis, FIRST_YEAR, 3, 1, gate);
    let Ok(projection) = &projected.answer else {
        return false;
    };
    is_as_expected(projection, case)
}

// Claims for the last of the policies, when the first part was read.
fn claim_between<D: Disk, W: Watching, R: Wait>(
    rt: &R,
    office: &Office<D, W>,
    pass: &mut OfficePass<D, W>,
    meeting: &Meeting,
)
    requires { pass.old.turnstile ≡ office.now }
    ensures { (pass.new.turnstile ≡ pass.old.turnstile) × (pass.new.shares ≡ pass.old.shares) }
{
    wait_for(rt, &meeting.reached);
    post(
        rt,
        office,
        pass,
        &Command::Claim {
            id: 300,
            day: 18_276,
        },
    );
    meeting.done.store(true, Ordering::SeqCst);
}

// Both callers at once. Returns whether the projection is that of the position that was pinned.
fn both<D: Disk + Send, W: Watching + Send, R: Threads + Wait + Sync>(
    rt: &R,
    alloc: Global,
    office: &Office<D, W>,
    mut pass: OfficePass<D, W>,
    basis: &Basis,
) -> (OfficePass<D, W>, bool)
    requires { (pass.turnstile ≡ office.now) × (3 ≤ pass.left) × (2 ≤ pass.shares) }
    ensures { (result.0.turnstile ≡ pass.turnstile) × (result.0.shares ≡ pass.shares) }
{
    let mut other = office.enter(&mut pass);
    let meeting = Meeting {
        reached: AtomicBool::new(false),
        done: AtomicBool::new(false),
    };
    let meeting_ref = &meeting;
    let ((mut pass, right), other) = join(
        rt,
        move || -> (OfficePass<D, W>, bool)
            requires { pass.turnstile ≡ office.now }
            ensures { (result.0.turnstile ≡ pass.turnstile) × (result.0.shares ≡ pass.shares) }
        {
            let right = project_issues(rt, alloc, office, &mut pass, basis, &ISSUED, meeting_ref);
            meeting_ref.reached.store(true, Ordering::SeqCst);
            (pass, right)
        },
        move || -> OfficePass<D, W>
            requires { other.turnstile ≡ office.now }
            ensures { (result.turnstile ≡ other.turnstile) × (result.shares ≡ other.shares) }
        {
            claim_between(rt, office, &mut other, meeting_ref);
            other
        },
    );
    office.leave(other, &mut pass);
    (pass, right)
}

#[test]
fn a_claim_between_the_parts_changes_no_cash(rt: HostRuntime) -> Result<(), Fail> {
    let alloc = rt.alloc();
    let basis = flat_basis(alloc)?;
    let empty = MemoryDisk::new(alloc, Vec::new(alloc), Vec::new(alloc));
    let Ok((office, mut pass)) = Office::start(alloc, empty, NoWatchers) else {
        return Err("an office".into());
    };
    issue_all(&rt, &office, &mut pass, 300);
    if pass.left() < 3 {
        panic!(rt; "no turns");
    }
    let (mut pass, right) = both(&rt, alloc, &office, pass, &basis);
    let afterwards = project_issues(&rt, alloc, &office, &mut pass, &basis, &CLAIMED, &OpenGate);
    close(office, pass);
    assert!(rt; right);
    assert!(rt; afterwards);
    Ok(())
}
