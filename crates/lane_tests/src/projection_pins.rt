// A projection beside live pins: it takes the sixteenth, and is refused if sixteen are live.
ghost use Rattle.std.specs.Prelude.{◌≡◌, ◌+◌, ◌*◌, ◌≤◌};
ghost use Rattle.shared_office.specs.Pins.{KeepsPins};

use crate::offices::{flat_basis, issue_all};
use crate::projection_tests::FIRST_YEAR;
use basis_book::Basis;
use cash_projection::project;
use memory_disk::MemoryDisk;
use outside_io::{Disk, OpenGate};
use policy_types::PinRefusal;
use shared_office::{Office, OfficeCalls, OfficePass, close};
use snapshot_value::ValueFault;
use std::alloc::Global;
use std::sync::Wait;
use std::test::Fail;
use std::thread::Threads;
use watcher_set::{NoWatchers, Watching};

// How many policies are projected beside so many pins, which are given up again; or why none are.
fn projected_beside<D: Disk, W: Watching, R: Threads + Wait + Sync>(
    rt: &R,
    alloc: Global,
    office: &Office<D, W>,
    pass: &mut OfficePass<D, W>,
    basis: &Basis,
    pins: u32,
) -> Result<u32, ValueFault>
    requires { (pass.old.turnstile ≡ office.now) × (16000 + 2 * pins ≤ pass.old.left) }
    ensures stays { (pass.new.turnstile ≡ pass.old.turnstile) × (pass.new.shares ≡ pass.old.shares) }
    ensures left { pass.old.left ≤ pass.new.left + (16000 + 2 * pins) }
    ensures pins { KeepsPins pass.old pass.new }
{
    if pins == 0 {
        let projected = project(rt, alloc, office, pass, basis, FIRST_YEAR, 1, 1, &OpenGate);
        return projected.answer.map(|projection| projection.policies);
    }
    match office.pin(rt, pass).answer {
        Ok(pin) => {
            let found = projected_beside(rt, alloc, office, pass, basis, pins - 1);
            office.unpin(rt, pass, pin);
            found
        }
        Err(refusal) => Err(ValueFault::Pin(refusal)),
    }
}

// The same, if the pass has enough turns for it.
fn found_beside<D: Disk, W: Watching, R: Threads + Wait + Sync>(
    rt: &R,
    alloc: Global,
    office: &Office<D, W>,
    pass: &mut OfficePass<D, W>,
    basis: &Basis,
    pins: u32,
) -> Option<Result<u32, ValueFault>>
    requires { pass.old.turnstile ≡ office.now }
    ensures { (pass.new.turnstile ≡ pass.old.turnstile) × (pass.new.shares ≡ pass.old.shares) }
{
    if pins > 16 {
        return None;
    }
    if pass.left() < 17_000 {
        return None;
    }
    Some(projected_beside(rt, alloc, office, pass, basis, pins))
}

#[test]
fn a_projection_needs_a_pin(rt: HostRuntime) -> Result<(), Fail> {
    let alloc = rt.alloc();
    let basis = flat_basis(alloc)?;
    let empty = MemoryDisk::new(alloc, Vec::new(alloc), Vec::new(alloc));
    let Ok((office, mut pass)) = Office::start(alloc, empty, NoWatchers) else {
        return Err("an office".into());
    };
    issue_all(&rt, &office, &mut pass, 2);
    let fifteen = found_beside(&rt, alloc, &office, &mut pass, &basis, 15);
    let sixteen = found_beside(&rt, alloc, &office, &mut pass, &basis, 16);
    let none = found_beside(&rt, alloc, &office, &mut pass, &basis, 0);
    close(office, pass);
    assert_eq!(rt; fifteen, Some(Ok(2)));
    assert_eq!(rt; sixteen, Some(Err(ValueFault::Pin(PinRefusal::PinsFull))));
    assert_eq!(rt; none, Some(Ok(2)));
    Ok(())
}
