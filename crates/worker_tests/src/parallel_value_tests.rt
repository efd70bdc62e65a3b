ghost use Rattle.std.specs.Prelude.{◌≡◌, ◌≤◌, ◌*◌, ⊤, length};

use memory_requests::NoMemory;
use parallel_value::{Piece, map_in, map_into, map_onto};
use std::alloc::Global;
use std::sync::atomic::{AtomicU32, Ordering};
use std::test::Fail;
use std::thread::{Threads, yield_now};
use test_rows::assert_rows;

/// The items of a part, which a worker takes at once.
const ITEMS_IN_PART: usize = 512;

/// How often a worker looks before it gives up.
const LOOKS: u32 = 20_000_000;

// A worker that squares, and counts how many items it went through.
#[derive(Clone, Copy, PartialEq, Eq, Debug)]
struct Squares {
    done: u64,
}

impl Piece<u32, u64> for Squares {
    ghost takes = { λ piece item. ⊤ };

    ghost gives = { λ piece item value. value ≡ item * item };

    fn one(&mut self, item: &u32) -> u64 {
        self.done = self.done.saturating_add(1);
        u64::from(*item) * u64::from(*item)
    }
}

// A worker that squares, and at its first item waits until all workers together have begun so many items. It doesn't
// wait forever: if it has looked too often, it counts a miss and goes on.
#[derive(Clone, Copy)]
struct Held<'a> {
    until: u32,
    begun: &'a AtomicU32,
    missed: &'a AtomicU32,
}

impl Piece<u32, u64> for Held<'_> {
    ghost takes = { λ piece item. ⊤ };

    ghost gives = { λ piece item value. value ≡ item * item };

    fn one(&mut self, item: &u32) -> u64 {
        self.begun.fetch_add(1, Ordering::SeqCst);
        if self.until > 0 {
            look_for(self.begun, self.until, self.missed);
            self.until = 0;
        }
        u64::from(*item) * u64::from(*item)
    }
}

// Looks until the number is at least this one, and counts a miss if it doesn't come.
fn look_for(number: &AtomicU32, least: u32, missed: &AtomicU32) {
    for _ in 0..LOOKS {
        if number.load(Ordering::SeqCst) >= least {
            return;
        }
        yield_now();
    }
    missed.fetch_add(1, Ordering::SeqCst);
}

fn all_squared<R: Threads + Sync>(
    rt: &R,
    alloc: Global,
    pieces: &mut [Squares],
    items: &[u32],
    items_in_part: usize,
) -> Result<Vec<u64>, NoMemory>
    requires workers { (1 ≤ length pieces.old) × (length pieces.old ≤ 64) }
    requires part { 1 ≤ items_in_part }
{
    map_in(rt, alloc, pieces, items, items_in_part)
}

fn fill_squared<R: Threads + Sync>(
    rt: &R,
    pieces: &mut [Squares],
    items: &[u32],
    values: &mut [u64],
)
    requires workers { (1 ≤ length pieces.old) × (length pieces.old ≤ 64) }
    requires places { length values.old ≡ length items.now }
{
    map_into(rt, pieces, items, values);
}

fn add_squared<R: Threads + Sync>(
    rt: &R,
    alloc: Global,
    pieces: &mut [Squares],
    items: &[u32],
    items_in_part: usize,
    values: &mut Vec<u64>,
) -> Result<(), NoMemory>
    requires workers { (1 ≤ length pieces.old) × (length pieces.old ≤ 64) }
    requires part { 1 ≤ items_in_part }
{
    map_onto(rt, alloc, pieces, items, items_in_part, values)
}

fn add_held<R: Threads + Sync>(
    rt: &R,
    alloc: Global,
    pieces: &mut [Held<'_>],
    items: &[u32],
    items_in_part: usize,
    values: &mut Vec<u64>,
) -> Result<(), NoMemory>
    requires workers { (1 ≤ length pieces.old) × (length pieces.old ≤ 64) }
    requires part { 1 ≤ items_in_part }
{
    map_onto(rt, alloc, pieces, items, items_in_part, values)
}

// The squares by workers, each of which waits at its first item until so many are begun.
fn squared_by_held<R: Threads + Sync>(
    rt: &R,
    alloc: Global,
    until: &[u32],
    items: &[u32],
    missed: &AtomicU32,
) -> Result<Vec<u64>, NoMemory>
    requires { (1 ≤ length until.now) × (length until.now ≤ 64) }
{
    let begun = AtomicU32::new(0);
    let mut pieces = [Held {
        until: 0,
        begun: &begun,
        missed,
    }; 64];
    for (piece, until) in pieces.iter_mut().zip(until) {
        piece.until = *until;
    }
    let mut values: Vec<u64> = Vec::new(alloc);
    add_held(
        rt,
        alloc,
        &mut pieces[..until.len()],
        items,
        ITEMS_IN_PART,
        &mut values,
    )?;
    Ok(values)
}

// So many items: 0, 1, 2 and so on.
fn numbers(alloc: Global, many: u32) -> Result<Vec<u32>, Fail> {
    let mut items: Vec<u32> = Vec::new(alloc);
    for item in 0..many {
        items.push(item)?;
    }
    Ok(items)
}

// Three workers, by each of the three calls, with what was in a place or before it. Parts of one item and of many.
#[test]
fn the_squares_stand_in_order(rt: HostRuntime) -> Result<(), Fail> {
    let alloc = rt.alloc();
    let items = numbers(alloc, 1_025)?;
    let mut pieces = [Squares { done: 0 }; 3];
    let made = all_squared(&rt, alloc, &mut pieces, &items, 1);
    assert!(rt; made.is_ok_and(|values| are_squares(values.as_slice(), 1_025)));
    let mut filled: Vec<u64> = Vec::new(alloc);
    filled.resize(items.len(), 7)?;
    fill_squared(&rt, &mut pieces, &items, filled.as_mut_slice());
    assert!(rt; are_squares(filled.as_slice(), 1_025));
    let mut added: Vec<u64> = Vec::new(alloc);
    added.push(7)?;
    assert_eq!(rt;
        add_squared(&rt, alloc, &mut pieces, &items, ITEMS_IN_PART, &mut added),
        Ok(())
    );
    let Some((first, rest)) = added.as_slice().split_first() else {
        return Err("values".into());
    };
    assert!(rt; *first == 7 && are_squares(rest, 1_025));
    Ok(())
}

// Whether these are the squares of the first so many numbers, at most of 8,192.
fn are_squares(values: &[u64], many: usize) -> bool {
    for (value, item) in values.iter().zip(0_u64..8_192) {
        if *value != item.wrapping_mul(item) {
            return false;
        }
    }
    values.len() == many && many <= 8_192
}

// Workers, items and items of a part: each item is gone through once, by no more workers than there are parts.
#[test]
fn each_part_is_taken_once(rt: HostRuntime) -> Result<(), Fail> {
    let alloc = rt.alloc();
    let cases = [
        (1_usize, 5_u32, 1_usize),
        (3, 0, 1),
        (3, 2, 1),
        (3, 64, 1),
        (8, 1_025, 512),
        (2, 1_025, 512),
        (3, 7, usize::MAX),
    ];
    assert_rows!(rt; (workers, many, part) in cases => {
        let items = numbers(alloc, many)?;
        let mut pieces = [Squares { done: 0 }; 8];
        let all = &mut pieces[..workers.clamp(1, 8)];
        let part = part.max(1);
        let made = all_squared(&rt, alloc, all, &items, part);
        made.is_ok_and(|values| values.len() == items.len())
            && are_done(&pieces, items.len().div_ceil(part).max(1), many)
    }; "{workers} workers, {many} items, parts of {part}");
    Ok(())
}

// Whether the workers have done so many items together, and those after the first so many of them have done none.
fn are_done(pieces: &[Squares], workers: usize, many: u32) -> bool {
    let mut done = 0_u64;
    for (piece, number) in pieces.iter().zip(0_usize..8) {
        done = done.saturating_add(piece.done);
        if number >= workers && piece.done > 0 {
            return false;
        }
    }
    done == u64::from(many)
}

// Each waits at its first item until all are at theirs.
#[test]
fn all_workers_are_at_work_at_the_same_time(rt: HostRuntime) -> Result<(), Fail> {
    let alloc = rt.alloc();
    assert_rows!(rt; workers in [2_u32, 3, 8] => {
        let items = numbers(alloc, workers.wrapping_mul(512))?;
        let until = [workers; 8];
        let until = &until[..(workers as usize).clamp(1, 8)];
        let missed = AtomicU32::new(0);
        let values = squared_by_held(&rt, alloc, until, items.as_slice(), &missed)?;
        missed.load(Ordering::SeqCst) == 0 && are_squares(values.as_slice(), items.len())
    }; "{workers} workers");
    Ok(())
}

// It waits at its first item until the others have begun all items except those of its own part.
#[test]
fn a_worker_that_is_held_up_leaves_the_other_parts_to_the_others(
    rt: HostRuntime,
) -> Result<(), Fail> {
    let alloc = rt.alloc();
    let items = numbers(alloc, 5_120)?;
    let cases = [(2_usize, 0_usize), (2, 1), (3, 0), (3, 1), (3, 2), (8, 5)];
    assert_rows!(rt; (workers, held) in cases => {
        let mut until = [0_u32; 8];
        until[held.min(7)] = 4_609;
        let until = &until[..workers.clamp(1, 8)];
        let missed = AtomicU32::new(0);
        let values = squared_by_held(&rt, alloc, until, items.as_slice(), &missed)?;
        missed.load(Ordering::SeqCst) == 0 && are_squares(values.as_slice(), items.len())
    }; "{held} of {workers}");
    Ok(())
}
