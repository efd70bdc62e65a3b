// Each position of a script, valued once all of it was posted: as an office values it that was given only its
// beginning.
ghost use Rattle.std.specs.Prelude.{◌≡◌};

use crate::forty_commands::COMMANDS;
use crate::offices::{flat_basis, post};
use crate::snapshot_value_tests::terminal;
use basis_book::Basis;
use memory_disk::MemoryDisk;
use outside_io::{Disk, OpenGate};
use policy_types::At;
use shared_office::{Office, OfficeCalls, OfficePass, close};
use snapshot_value::{Valuation, value};
use std::alloc::Global;
use std::sync::Wait;
use std::test::Fail;
use std::thread::Threads;
use watcher_set::{NoWatchers, Watching};

// 2022-01-01, two years after the policies are issued.
const TWO_YEARS: i32 = 18_993;

// Posts the first `count` of the commands.
fn post_first<D: Disk, W: Watching, R: Wait>(
    rt: &R,
    office: &Office<D, W>,
    pass: &mut OfficePass<D, W>,
    many: usize,
)
    requires { pass.old.turnstile ≡ office.now }
    ensures { (pass.new.turnstile ≡ pass.old.turnstile) × (pass.new.shares ≡ pass.old.shares) }
{
    let commands = COMMANDS.get(..many).unwrap_or(COMMANDS);
    for command in commands {
        post(rt, office, pass, command);
    }
}

// The valuation at a position, if there are turns for it and memory isn't refused.
fn valued<D: Disk, W: Watching, R: Threads + Wait + Sync>(
    rt: &R,
    alloc: Global,
    office: &Office<D, W>,
    pass: &mut OfficePass<D, W>,
    basis: &Basis,
    at: At,
) -> Option<Valuation>
    requires { pass.old.turnstile ≡ office.now }
    ensures { (pass.new.turnstile ≡ pass.old.turnstile) × (pass.new.shares ≡ pass.old.shares) }
{
    if pass.left() < 16_000 {
        return None;
    }
    let answer = value(
        rt,
        alloc,
        office,
        pass,
        terminal(basis, TWO_YEARS, 4),
        at,
        3,
        &OpenGate,
    );
    answer.answer.ok()
}

// What an office of the first so many commands values, as it is.
fn valued_then<R: Threads + Wait + Sync>(
    rt: &R,
    alloc: Global,
    basis: &Basis,
    many: usize,
) -> Option<Valuation> {
    let empty = MemoryDisk::new(alloc, Vec::new(alloc), Vec::new(alloc));
    let Ok((office, mut pass)) = Office::start(alloc, empty, NoWatchers) else {
        return None;
    };
    post_first(rt, &office, &mut pass, many);
    let then = valued(rt, alloc, &office, &mut pass, basis, At::Now);
    close(office, pass);
    then
}

// Whether both are of the same position and have the same rows.
fn are_same(one: &Option<Valuation>, other: &Option<Valuation>) -> bool {
    let (Some(one), Some(other)) = (one, other) else {
        return false;
    };
    one.position == other.position && one.rows.as_slice() == other.rows.as_slice()
}

// The first position, from one on, at which the office with all commands values otherwise than one with so many.
fn first_otherwise<D: Disk, W: Watching, R: Threads + Wait + Sync>(
    rt: &R,
    alloc: Global,
    office: &Office<D, W>,
    pass: &mut OfficePass<D, W>,
    basis: &Basis,
) -> Option<usize>
    requires { pass.old.turnstile ≡ office.now }
    ensures { (pass.new.turnstile ≡ pass.old.turnstile) × (pass.new.shares ≡ pass.old.shares) }
{
    for position in 0..41usize {
        let at = At::Position(position as u32);
        let there = valued(rt, alloc, office, pass, basis, at);
        if !are_same(&there, &valued_then(rt, alloc, basis, position)) {
            return Some(position);
        }
    }
    None
}

#[test]
fn each_position_of_forty_commands(rt: HostRuntime) -> Result<(), Fail> {
    let alloc = rt.alloc();
    let basis = flat_basis(alloc)?;
    let empty = MemoryDisk::new(alloc, Vec::new(alloc), Vec::new(alloc));
    let Ok((office, mut pass)) = Office::start(alloc, empty, NoWatchers) else {
        return Err("an office".into());
    };
    post_first(&rt, &office, &mut pass, 40);
    let all = valued(&rt, alloc, &office, &mut pass, &basis, At::Now);
    let otherwise = first_otherwise(&rt, alloc, &office, &mut pass, &basis);
    close(office, pass);
    assert_eq!(rt; otherwise, None);
    let Some(all) = all else {
        return Err("a valuation".into());
    };
    assert_eq!(rt; (all.position, all.rows.as_slice().len()), (40, 8));
    Ok(())
}
