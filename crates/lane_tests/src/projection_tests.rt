// A projection of one caller's office. The cash of one policy is worked out by hand: of 1000 that pay 400.00 in
// advance for three years, the rates 0.1, 0.2 and 0.25 leave 900, 720 and 540.
ghost use Rattle.std.specs.Prelude.{◌≡◌, ◌≤◌};

use crate::offices::{flat_basis, issue_all, post};
use basis_book::Basis;
use cash_projection::{Projection, Year, project};
use memory_disk::MemoryDisk;
use outside_io::{Disk, Gate};
use policy_types::Command;
use present_value::Pair;
use shared_office::{Office, OfficeCalls, OfficePass, close};
use std::alloc::Global;
use std::cell::Cell;
use std::sync::Wait;
use std::test::Fail;
use std::thread::Threads;
use watcher_set::{NoWatchers, Watching};

/// 2020-12-31, in the first year of the policies.
pub(crate) const FIRST_YEAR: i32 = 18_627;

// Premiums, deaths and maturities of one policy, in cents, by year.
const CASH: [(u64, u64, u64); 4] = [
    (40_000, 10_000, 0),
    (36_000, 18_000, 0),
    (28_800, 18_000, 54_000),
    (0, 0, 0),
];

// A gate that counts the steps at which lane 0 comes to it.
#[derive(Drop)]
struct Steps {
    last: Cell<u32>,
}

impl Gate for Steps {
    fn at<R: Wait>(&self, _rt: &R, lane: u8, step: u32) {
        let next = self.last.get().saturating_add(1);
        self.last
            .set(if lane == 0 && step == next { step } else { 0 });
    }
}

fn exactly(policies: u32, cents: u64) -> Pair {
    let sum = cents.saturating_mul(u64::from(policies));
    Pair { lo: sum, hi: sum }
}

/// What is expected of a projection on 2020-12-31.
#[derive(Clone, Copy)]
pub(crate) struct Case {
    pub(crate) position: u32,
    /// The policies of the book, those of them that are insured, and those of these that owe their first premium.
    pub(crate) policies: u32,
    pub(crate) insured: u32,
    pub(crate) owing: u32,
    pub(crate) years: u8,
}

/// Whether a projection is as expected.
pub(crate) fn is_as_expected(projection: &Projection, case: &Case) -> bool {
    for (j, year) in projection.years.as_slice().iter().enumerate() {
        let (premium, death, maturity) = CASH[j.min(3)];
        let owing = if j == 0 { case.owing } else { case.insured };
        let due = Year {
            premium: exactly(owing, premium),
            death: exactly(case.insured, death),
            maturity: exactly(case.insured, maturity),
        };
        if *year != due {
            return false;
        }
    }
    projection.position == case.position
        && projection.on == FIRST_YEAR
        && projection.policies == case.policies
        && projection.unvalued == 0
        && projection.years.as_slice().len() == usize::from(case.years)
}

// Whether a projection by two workers comes out as expected, and calls its gate for each part that it read.
fn is_projected<D: Disk, W: Watching, R: Threads + Wait + Sync>(
    rt: &R,
    alloc: Global,
    office: &Office<D, W>,
    pass: &mut OfficePass<D, W>,
    basis: &Basis,
    case: &Case,
) -> bool
    requires { pass.old.turnstile ≡ office.now }
    ensures { (pass.new.turnstile ≡ pass.old.turnstile) × (pass.new.shares ≡ pass.old.shares) }
{
    let years = case.years.clamp(1, 131);
    if pass.left() < 16_000 {
        return false;
    }
    let steps = Steps { last: Cell::new(0) };
    let projected = project(rt, alloc, office, pass, basis, FIRST_YEAR, years, 2, &steps);
    let Ok(projection) = &projected.answer else {
        return false;
    };
    steps.last.get() == case.policies.div_ceil(256) && is_as_expected(projection, case)
}

// A part and a policy, of which one paid its first premium.
const PAID: Case = Case {
    position: 258,
    policies: 257,
    insured: 257,
    owing: 256,
    years: 131,
};

#[test]
fn a_projection_is_read_in_parts(rt: HostRuntime) -> Result<(), Fail> {
    let alloc = rt.alloc();
    let basis = flat_basis(alloc)?;
    let empty = MemoryDisk::new(alloc, Vec::new(alloc), Vec::new(alloc));
    let Ok((office, mut pass)) = Office::start(alloc, empty, NoWatchers) else {
        return Err("an office".into());
    };
    issue_all(&rt, &office, &mut pass, PAID.policies);
    let premium = Command::Premium {
        id: 1,
        day: 18_262,
        amount: 40_000,
    };
    post(&rt, &office, &mut pass, &premium);
    let projected = is_projected(&rt, alloc, &office, &mut pass, &basis, &PAID);
    close(office, pass);
    assert!(rt; projected);
    Ok(())
}
