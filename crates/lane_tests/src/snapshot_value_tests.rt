// Valuations of one caller's office. The reserves are worked out by hand from the plan and the table: for an
// endowment of 1000.00 for three years at age 0, after one year 127.22 to 127.23, and after two 515.12 to 515.13.
ghost use Rattle.std.specs.Prelude.{◌≡◌, ◌≤◌};

use crate::offices::{ONE_YEAR, flat_basis, issue_all, post};
use basis_book::Basis;
use memory_disk::MemoryDisk;
use outside_io::{Disk, Gate, OpenGate};
use policy_types::{At, Command, PinRefusal, Status};
use policy_value::{Measure, Row, Worth};
use shared_office::{Office, OfficeCalls, OfficePass, close};
use snapshot_value::{Query, Valuation, ValueFault, value};
use std::alloc::Global;
use std::cell::Cell;
use std::sync::Wait;
use std::test::Fail;
use std::thread::Threads;
use turn_lock::Turned;
use watcher_set::{NoWatchers, Watching};

// 2022-01-01, two years after the policies are issued.
const TWO_YEARS: i32 = 18_993;

// A gate that counts the steps at which it is called, and whether each came after the one before.
#[derive(Drop)]
struct Steps {
    last: Cell<u32>,
    in_order: Cell<bool>,
}

impl Gate for Steps {
    fn at<R: Wait>(&self, _rt: &R, lane: u8, step: u32) {
        let next = self.last.get().saturating_add(1);
        self.in_order
            .set(self.in_order.get() && lane == 3 && step == next);
        self.last.set(step);
    }
}

// A question after terminal reserves.
pub(crate) fn terminal(basis: &Basis, on: i32, workers: u8) -> Query<'_>
    ensures { result.workers ≡ workers }
{
    Query {
        basis,
        on,
        measure: Measure::Terminal,
        workers,
    }
}

pub(crate) fn inforce(id: u32, t: u8, lo: u64, hi: u64) -> Row {
    Row {
        id,
        status: Status::InForce,
        t,
        worth: Worth::Bounds { lo, hi },
    }
}

// Whether the turn of the pin is this, and the valuation is of this position, with this row for each of so many
// policies, whose numbers begin with 1.
pub(crate) fn is_of(
    valued: &Turned<Result<Valuation, ValueFault>>,
    turn: u64,
    position: u32,
    policies: u32,
    row: &Row,
) -> bool {
    let Ok(valuation) = &valued.answer else {
        return false;
    };
    let mut id = 0u32;
    for found in valuation.rows.as_slice() {
        id = id.saturating_add(1);
        if *found != (Row { id, ..*row }) {
            return false;
        }
    }
    valued.turn == turn && valuation.position == position && id == policies
}

/// What is asked of an office: a position, a day, and then the policies there are, their row, and how many turns are taken.
pub(crate) type Case = (At, i32, u32, u32, Row, u64);

/// Values at each of the positions, from this turn on, and returns the number of the case that came out otherwise.
pub(crate) fn first_wrong<D: Disk, W: Watching, R: Threads + Wait + Sync>(
    rt: &R,
    alloc: Global,
    office: &Office<D, W>,
    pass: &mut OfficePass<D, W>,
    basis: &Basis,
    workers: u8,
    first: u64,
    cases: &[Case],
) -> Option<usize>
    requires { (pass.old.turnstile ≡ office.now) × (1 ≤ workers) × (workers ≤ 64) }
    ensures { (pass.new.turnstile ≡ pass.old.turnstile) × (pass.new.shares ≡ pass.old.shares) }
{
    let mut turn = first;
    for (index, case) in cases.iter().enumerate() {
        let (at, on, position, policies, row, turns) = *case;
        let steps = Steps {
            last: Cell::new(0),
            in_order: Cell::new(true),
        };
        if pass.left() < 16_000 {
            return Some(index);
        }
        let answer = value(
            rt,
            alloc,
            office,
            pass,
            terminal(basis, on, workers),
            at,
            3,
            &steps,
        );
        let called = steps.in_order.get() && u64::from(steps.last.get()).saturating_add(2) == turns;
        if !called || !is_of(&answer, turn, position, policies, &row) {
            return Some(index);
        }
        turn = turns.saturating_add(turn);
    }
    None
}

// The statuses of the first policies now, and the result at a position of more commands than there are.
fn now_and_ahead<D: Disk, W: Watching, R: Threads + Wait + Sync>(
    rt: &R,
    alloc: Global,
    office: &Office<D, W>,
    pass: &mut OfficePass<D, W>,
    basis: &Basis,
) -> Option<(u32, Status, ValueFault)>
    requires { pass.old.turnstile ≡ office.now }
    ensures { (pass.new.turnstile ≡ pass.old.turnstile) × (pass.new.shares ≡ pass.old.shares) }
{
    if pass.left() < 32_000 {
        return None;
    }
    let now = value(
        rt,
        alloc,
        office,
        pass,
        terminal(basis, ONE_YEAR, 1),
        At::Now,
        3,
        &OpenGate,
    );
    let ahead = value(
        rt,
        alloc,
        office,
        pass,
        terminal(basis, ONE_YEAR, 64),
        At::Position(302),
        3,
        &OpenGate,
    );
    let (Ok(newest), Err(fault)) = (&now.answer, &ahead.answer) else {
        return None;
    };
    let row = newest.rows.as_slice().first()?;
    Some((newest.position, row.status, *fault))
}

const FIRST: Row = Row {
    id: 1,
    status: Status::InForce,
    t: 1,
    worth: Worth::Bounds {
        lo: 12_722,
        hi: 12_723,
    },
};

const SECOND: Row = Row {
    id: 1,
    status: Status::InForce,
    t: 2,
    worth: Worth::Bounds {
        lo: 51_512,
        hi: 51_513,
    },
};

const CASES: &[Case] = &[
    (At::Position(300), ONE_YEAR, 300, 300, FIRST, 4),
    (At::Position(300), TWO_YEARS, 300, 300, SECOND, 4),
    (At::Position(256), ONE_YEAR, 256, 256, FIRST, 3),
    (At::Position(257), ONE_YEAR, 257, 257, FIRST, 4),
    (At::Position(1), ONE_YEAR, 1, 1, FIRST, 3),
    (At::Position(0), ONE_YEAR, 0, 0, FIRST, 2),
];

#[test]
fn positions_are_valued(rt: HostRuntime) -> Result<(), Fail> {
    let alloc = rt.alloc();
    let basis = flat_basis(alloc)?;
    let empty = MemoryDisk::new(alloc, Vec::new(alloc), Vec::new(alloc));
    let Ok((office, mut pass)) = Office::start(alloc, empty, NoWatchers) else {
        return Err("an office".into());
    };
    issue_all(&rt, &office, &mut pass, 300);
    post(
        &rt,
        &office,
        &mut pass,
        &Command::Lapse { id: 1, day: 18_660 },
    );
    let wrong = first_wrong(&rt, alloc, &office, &mut pass, &basis, 4, 301, CASES);
    let last = now_and_ahead(&rt, alloc, &office, &mut pass, &basis);
    close(office, pass);
    assert_eq!(rt; wrong, None);
    let ahead = ValueFault::Pin(PinRefusal::Ahead(301));
    assert_eq!(rt; last, Some((301, Status::Lapsed, ahead)));
    Ok(())
}
