// A book of versions of policies: settings, reads at one position after the other, and a trim.
ghost use Rattle.std.specs.Prelude.{◌≡◌, ◌<◌, ◌≤◌, OnOk, IfOk};
ghost use Rattle.versioned_book.specs.Books.{IsSomeBook};

use crate::words::{Outcome, number_in};
use outside_io::Steps;
use policy_types::{NoMemory, Plan, Policy, Status};
use std::alloc::Global;
use std::env::Args;
use std::io;
use std::marker::Brand;
use std::sync::ledger::{Blank, Ledger};
use versioned_book::VersionedBook;

/// As many policies as one read gives.
const BATCH: u32 = 256;

/// What a book is filled with, and how often it is read.
#[derive(Clone, Copy)]
struct Load {
    policies: u32,
    versions: u32,
    reads: u32,
    trims: u32,
}

/// Sets so many policies so many times each, in turn; reads 256 policies so many times, each time at another position; gives
/// up all but the newest versions, so many times over; and prints how many policies and versions there are then, and the sum
/// of the premiums paid of those that were read.
pub fn measure_versions<R: Print + AllocGlobal>(rt: &R, words: &mut Args) -> io::Result<Outcome> {
    let (Some(policies), Some(versions), Some(reads), Some(trims)) = (
        number_in(words),
        number_in(words),
        number_in(words),
        number_in(words),
    ) else {
        return Ok(Outcome::OtherWords);
    };
    let load = Load {
        policies,
        versions,
        reads,
        trims,
    };
    let Ok((kept, paid)) = run::<Brand>(rt.alloc(), Blank::new(1), load) else {
        return Ok(Outcome::NoMemory);
    };
    println!(rt; "versions,{policies},{kept},{paid}")?;
    Ok(Outcome::Measured)
}

// How many versions are kept at the end, and the sum of what was read.
fn run<L: Ledger>(alloc: Global, blank: Blank, load: Load) -> Result<(u32, u64), NoMemory>
    requires name { blank.name ≡ L.name }
    requires parts { blank.parts ≡ L.parts }
    requires some { 0 < L.parts }
{
    let mut steps: Steps<L> = Steps::open(blank);
    let mut book = VersionedBook::new(alloc);
    let mut last = 0;
    for round in 0..load.versions {
        last = set_all(&mut book, load.policies, round, last)?;
    }
    let mut paid: u64 = 0;
    for n in 0..load.reads {
        let p = n.wrapping_mul(2_654_435_761) % last.max(1);
        let first = n.wrapping_mul(2_246_822_519) % load.policies.max(1);
        paid = paid.saturating_add(read_batch(&book, first, p, &mut steps));
    }
    for _ in 0..load.trims {
        book.trim(last);
    }
    Ok((book.kept(), paid))
}

// Sets each policy once, from a position on, as far as positions reach; the last position that was set.
fn set_all(
    book: &mut VersionedBook<Policy>,
    policies: u32,
    round: u32,
    last: u32,
) -> Result<u32, NoMemory>
    requires stands { IsSomeBook book.old }
    requires rising { book.old.last ≤ last }
    requires floor { book.old.floor ≡ 0 }
    ensures stands { IsSomeBook book.new }
    ensures rising { IfOk result (λ r. book.new.last ≤ r) }
    ensures floor { book.new.floor ≡ 0 }
{
    let mut position = last;
    for id in 0..policies {
        let Some(next) = position.checked_add(1) else {
            return Ok(position);
        };
        position = next;
        book.reserve(id)?;
        book.set(id, position, version(id, round));
    }
    Ok(position)
}

fn version(id: u32, round: u32) -> Policy {
    Policy {
        id,
        plan: Plan::Whole,
        age: 30,
        years: 0,
        amount: 100_000,
        premium: 1_000,
        issued: 18_262,
        last: 18_262,
        paid: (round % 100) as u8,
        status: Status::InForce,
        outstanding: 0,
    }
}

// Reads up to 256 policies at a position, and sums the premiums paid.
fn read_batch<L: Ledger>(
    book: &VersionedBook<Policy>,
    first: u32,
    p: u32,
    steps: &mut Steps<L>,
) -> u64
    requires stands { IsSomeBook book.now }
    requires floor { book.now.floor ≤ p }
{
    let mut paid: u64 = 0;
    for index in first..book.count_at(p).min(first.saturating_add(BATCH)) {
        paid = paid.saturating_add(book.at(index, p, steps).paid as u64);
    }
    paid
}
