// A book against the plain list of all its settings, in random settings, trims and reads.
ghost use Rattle.std.specs.Prelude.{◌≡◌, ◌<◌, ◌≤◌, OnOk};
ghost use Rattle.versioned_book.specs.Books.{IsSomeBook};

use crate::versioned_book_tests::{put, value};
use outside_io::Steps;
use std::alloc::Global;
use std::marker::Brand;
use std::process::Abort;
use std::sync::ledger::{Blank, Ledger};
use std::test::Fail;
use versioned_book::VersionedBook;

const KEYS: u32 = 9;

// A setting: key, position, value.
type Set = (u32, u32, u64);

// A draw below a bound.
fn draw(state: &mut u32, below: u32) -> u32
    requires { 0 < below }
    ensures { result < below }
{
    *state = state.wrapping_mul(1_664_525).wrapping_add(1_013_904_223);
    (*state >> 8) % below
}

// What a key was last set to at or before a position.
fn last_set(sets: &[Set], key: u32, p: u32) -> Option<u64> {
    let mut found = None;
    for set in sets {
        if set.0 == key && set.1 <= p {
            found = Some(set.2);
        }
    }
    found
}

// Whether the setting at a place is the first of its key.
fn is_first(sets: &[Set], place: usize) -> bool {
    let Some(set) = sets.get(place) else {
        return false;
    };
    sets.iter().take(place).all(|before| before.0 != set.0)
}

// The key of the index-th first setting at or before a position.
fn key_at(sets: &[Set], index: u32, p: u32) -> Option<u32> {
    let mut left = index;
    for place in 0..sets.len() {
        if sets[place].1 <= p && is_first(sets, place) {
            if left == 0 {
                return Some(sets[place].0);
            }
            left -= 1;
        }
    }
    None
}

// Whether the setting at a place is needed by a position from the floor on: it is after the floor, or is the last one
// of its key at or before it.
fn is_needed(sets: &[Set], place: usize, floor: u32) -> bool {
    let Some(set) = sets.get(place) else {
        return false;
    };
    set.1 > floor
        || sets
            .iter()
            .skip(place + 1)
            .all(|later| later.0 != set.0 || later.1 > floor)
}

fn needed(sets: &[Set], floor: u32) -> usize {
    (0..sets.len())
        .filter(|place| is_needed(sets, *place, floor))
        .count()
}

// Compares what the book and the list have at a position from the floor on.
fn compares<R: Abort, L: Ledger>(
    rt: &R,
    book: &VersionedBook<u64>,
    sets: &[Set],
    p: u32,
    steps: &mut Steps<L>,
) -> Result<(), Fail>
    requires floor { book.now.floor ≤ p }
    requires stands { IsSomeBook book.now }
{
    for index in 0..KEYS + 1 {
        let key = key_at(sets, index, p);
        let expected = match key {
            Some(key) => last_set(sets, key, p),
            None => None,
        };
        assert_eq!(rt;
            value(book, index, p, steps),
            expected,
            "index {index} at {p}"
        );
        assert_eq!(rt; index < book.count_at(p), key.is_some(), "count at {p}");
    }
    for key in 0..KEYS {
        assert_eq!(rt;
            book.get(key),
            last_set(sets, key, u32::MAX),
            "newest of {key}"
        );
    }
    assert_eq!(rt;
        book.kept() as usize,
        needed(sets, book.floor()),
        "kept from {}",
        book.floor()
    );
    Ok(())
}

// Sets one key, trims now and then, and compares at a random position from the floor on.
fn one_round<R: Abort, L: Ledger>(
    rt: &R,
    book: &mut VersionedBook<u64>,
    sets: &mut Vec<Set>,
    state: &mut u32,
    position: u32,
    steps: &mut Steps<L>,
) -> Result<(), Fail>
    requires stands { IsSomeBook book.old }
    requires last { book.old.last < position }
    requires low { position < 10000 }
    ensures stands { IsSomeBook book.new }
    ensures last { OnOk result (book.new.last ≡ position) }
{
    let key = draw(state, KEYS);
    let value = position as u64 * 16 + key as u64;
    put(book, key, position, value)?;
    sets.push((key, position, value))?;
    if draw(state, 4) == 0 {
        let floor = book.floor().saturating_add(draw(state, 12));
        book.trim(floor);
    }
    let p = book.floor().saturating_add(draw(state, position + 3));
    compares(rt, book, sets.as_slice(), p, steps)
}

fn rounds<R: Abort, L: Ledger>(rt: &R, alloc: Global, seed: u32, blank: Blank) -> Result<(), Fail>
    requires name { blank.name ≡ L.name }
    requires parts { blank.parts ≡ L.parts }
    requires some { 0 < L.parts }
{
    let mut steps: Steps<L> = Steps::open(blank);
    let mut book = VersionedBook::new(alloc);
    let mut sets = Vec::new(alloc);
    let mut state = seed;
    for round in 0..120u32 {
        let position = 2 * round + 1 + draw(&mut state, 2);
        one_round(rt, &mut book, &mut sets, &mut state, position, &mut steps)?;
    }
    Ok(())
}

#[test]
fn random_settings_trims_and_reads(rt: HostRuntime) -> Result<(), Fail> {
    let alloc = rt.alloc();
    for seed in 1..6u32 {
        rounds::<_, Brand>(&rt, alloc, seed, Blank::new(1))?;
    }
    Ok(())
}
