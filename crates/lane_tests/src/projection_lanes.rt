// A caller's projection while seven lanes post: each of them claims for a policy between its parts.
ghost use Rattle.std.specs.Prelude.{◌≡◌, ◌≤◌, []};
ghost use Rattle.rtrb.specs.Ring.{received};

use crate::lane_gates::Seven;
use crate::lane_runner_tests::{claim, lane};
use crate::lane_trials::run_right;
use crate::line_words::count_accepted;
use crate::offices::{flat_basis, issue, issue_all};
use crate::projection_meeting::{ISSUED, project_issues};
use crate::projection_tests::Case;
use basis_book::Basis;
use memory_disk::MemoryDisk;
use moment_ring::{MomentInlet, moment_ring};
use outside_io::{Disk, OpenGate};
use policy_types::{Lane, Line};
use shared_office::{Office, OfficePass, close, start_telling};
use std::alloc::{AllocError, Global};
use std::sync::Wait;
use std::test::Fail;
use std::thread::{Threads, join};
use watcher_set::{NoWatchers, Watching};

// Three hundred issues, and then seven claims and fourteen further issues.
const POSTED: Case = Case {
    position: 321,
    policies: 314,
    insured: 307,
    owing: 307,
    years: 3,
};

// Seven lanes, each of which claims for a policy of its own and then issues two.
fn seven_lanes(alloc: Global) -> Result<Vec<Lane>, AllocError> {
    let mut lanes = Vec::new(alloc);
    for number in 1..=7u8 {
        let id = u32::from(number);
        let posted = [
            claim(id * 40),
            Line::Post(issue(id + 1_000)),
            Line::Post(issue(id + 2_000)),
        ];
        lanes.push(lane(alloc, number, &posted)?)?;
    }
    Ok(lanes)
}

// The projection while the lanes run. Returns whether it is that of the position that was pinned, and how many lines
// were accepted.
fn both<D: Disk + Send, W: Watching + Send, R: Threads + Wait + Sync>(
    rt: &R,
    alloc: Global,
    office: &Office<D, W>,
    mut pass: OfficePass<D, W>,
    basis: &Basis,
    lanes: &[Lane],
    gate: &Seven,
    moments: MomentInlet<D>,
) -> (OfficePass<D, W>, bool, usize)
    requires pass { (pass.turnstile ≡ office.now) × (3 ≤ pass.left) × (2 ≤ pass.shares) }
    requires unheard { received moments.ring ≡ [] }
    ensures { (result.0.turnstile ≡ pass.turnstile) × (result.0.shares ≡ pass.shares) }
{
    let mut other = office.enter(&mut pass);
    let ((mut pass, right), (other, posted)) = join(
        rt,
        move || -> (OfficePass<D, W>, bool)
            requires { pass.turnstile ≡ office.now }
            ensures { (result.0.turnstile ≡ pass.turnstile) × (result.0.shares ≡ pass.shares) }
        {
            let right = project_issues(rt, alloc, office, &mut pass, basis, &ISSUED, gate);
            (pass, right)
        },
        move || -> (OfficePass<D, W>, usize)
            requires { (other.turnstile ≡ office.now) × (received moments.ring ≡ []) }
            ensures { (result.0.turnstile ≡ other.turnstile) × (result.0.shares ≡ other.shares) }
        {
            let mut moments = moments;
            let run = run_right(
                rt,
                alloc,
                office,
                &mut other,
                lanes,
                basis,
                gate,
                &mut moments,
            );
            let posted = match run {
                Some(run) => count_accepted(run.lines.as_slice()),
                None => 0,
            };
            (other, posted)
        },
    );
    office.leave(other, &mut pass);
    (pass, right, posted)
}

#[test]
fn seven_lanes_post_during_a_projection(rt: HostRuntime) -> Result<(), Fail> {
    let alloc = rt.alloc();
    let basis = flat_basis(alloc)?;
    let lanes = seven_lanes(alloc)?;
    let gate = Seven::new();
    let empty = MemoryDisk::new(alloc, Vec::new(alloc), Vec::new(alloc));
    let Ok((outlet, moments)) = moment_ring(alloc) else {
        return Err("a ring".into());
    };
    let Ok((office, mut pass)) = start_telling(alloc, empty, NoWatchers, outlet) else {
        return Err("an office".into());
    };
    issue_all(&rt, &office, &mut pass, 300);
    if pass.left() < 3 {
        panic!(rt; "no turns");
    }
    let (mut pass, right, posted) = both(
        &rt,
        alloc,
        &office,
        pass,
        &basis,
        lanes.as_slice(),
        &gate,
        moments,
    );
    let afterwards = project_issues(&rt, alloc, &office, &mut pass, &basis, &POSTED, &OpenGate);
    close(office, pass);
    assert!(rt; right);
    assert_eq!(rt; posted, 21);
    assert!(rt; afterwards);
    assert_eq!(rt; gate.missed(), 0);
    Ok(())
}
