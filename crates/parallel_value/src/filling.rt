// The values are written into places that are divided up together with the items, so no worker needs memory.
ghost use Rattle.std.specs.Prelude.{◌≡◌, ◌≤◌, ◌++◌, length, map};
ghost use Rattle.std.specs.List.{AllByRecursion, AllZip};
ghost use Rattle.std.specs.Thread.{IsSync, IsSend};
ghost use Rattle.parallel_value.specs.Pieces.{AreAsBefore, AreValues, Compute, IsAsBefore, TakeAll};

use crate::Piece;
use crate::share::share_of;
use std::thread::{Threads, join_mut};

/// Writes the values of the items into as many places, in their order, over what was there. Each worker goes through
/// a run of consecutive items, in a thread of its own; the runs differ in length by one item at most. A single worker
/// starts no thread. The call asks for no memory and can't fail.
pub fn map_into<R: Threads + Sync, I: Sync, O: Send + Drop, P: Piece<I, O> + Send>(
    rt: &R,
    pieces: &mut [P],
    items: &[I],
    values: &mut [O],
)
    requires workers { (1 ≤ length pieces.old) × (length pieces.old ≤ 64) }
    requires taken { TakeAll P.takes pieces.old items.now }
    requires places { length values.old ≡ length items.now }
    ensures values { AreValues P.gives pieces.old items.now values.new }
    ensures function { (f : I → O) → Compute P.gives pieces.old f → values.new ≡ map f items.now }
    ensures pieces { AreAsBefore P.takes P.gives pieces.old pieces.new }
{
    fill_by_all(rt, pieces, items, values);
}

// Starts the first worker, with its share of the items and their places, and then the others. So one thread starts
// all of them: a thread that starts another thread at once was seen to share one processor with it, while other
// processors were idle.
#[cycle(filling)]
fn fill_by_all<R: Threads + Sync, I: Sync, O: Send + Drop, P: Piece<I, O> + Send>(
    rt: &R,
    pieces: &mut [P],
    items: &[I],
    values: &mut [O],
)
    requires workers { (1 ≤ length pieces.old) × (length pieces.old ≤ 64) }
    requires taken { TakeAll P.takes pieces.old items.now }
    requires places { length values.old ≡ length items.now }
    ensures values { AreValues P.gives pieces.old items.now values.new }
    ensures pieces { AreAsBefore P.takes P.gives pieces.old pieces.new }
{
    let many = pieces.len();
    if many < 2 {
        fill_by_one(pieces, items, values);
        return;
    }
    let cut = share_of(items.len(), 1, many);
    let (first, last) = items.split_at(cut);
    let (to_first, to_last) = values.split_at_mut(cut);
    let (front, back) = pieces.split_at_mut(1);
    fill_both(rt, front, first, to_first, back, last, to_last);
}

// The first workers fill the first places, and the others the last, at the same time.
#[cycle(filling)]
fn fill_both<R: Threads + Sync, I: Sync, O: Send + Drop, P: Piece<I, O> + Send>(
    rt: &R,
    front: &mut [P],
    first: &[I],
    to_first: &mut [O],
    back: &mut [P],
    last: &[I],
    to_last: &mut [O],
)
    requires front { (1 ≤ length front.old) × (length front.old ≤ 64) }
    requires back { (1 ≤ length back.old) × (length back.old ≤ 64) }
    requires first { TakeAll P.takes front.old first.now }
    requires last { TakeAll P.takes back.old last.now }
    requires to_first { length to_first.old ≡ length first.now }
    requires to_last { length to_last.old ≡ length last.now }
    ensures first { AreValues P.gives front.old first.now to_first.new }
    ensures last { AreValues P.gives back.old last.now to_last.new }
    ensures front { AreAsBefore P.takes P.gives front.old front.new }
    ensures back { AreAsBefore P.takes P.gives back.old back.new }
{
    join_mut(
        rt,
        &mut ||
            requires sync { IsSync R.row × IsSync I.row × IsSend O.row × IsSend P.row }
            requires workers { (1 ≤ length front.now) × (length front.now ≤ 64) }
            requires taken { TakeAll P.takes front.now first.now }
            requires places { length to_first.now ≡ length first.now }
            ensures values { AreValues P.gives front.entry.now first.entry.now to_first.exit.now }
            ensures pieces { AreAsBefore P.takes P.gives front.entry.now front.exit.now }
        { fill_by_all(rt, front, first, to_first) },
        &mut ||
            requires sync { IsSync R.row × IsSync I.row × IsSend O.row × IsSend P.row }
            requires workers { (1 ≤ length back.now) × (length back.now ≤ 64) }
            requires taken { TakeAll P.takes back.now last.now }
            requires places { length to_last.now ≡ length last.now }
            ensures values { AreValues P.gives back.entry.now last.entry.now to_last.exit.now }
            ensures pieces { AreAsBefore P.takes P.gives back.entry.now back.exit.now }
        { fill_by_all(rt, back, last, to_last) },
    );
}

// The single worker goes through all items.
fn fill_by_one<I, O: Drop, P: Piece<I, O>>(pieces: &mut [P], items: &[I], values: &mut [O])
    requires one { length pieces.old ≡ 1 }
    requires taken { TakeAll P.takes pieces.old items.now }
    requires places { length values.old ≡ length items.now }
    ensures values { AreValues P.gives pieces.old items.now values.new }
    ensures pieces { AreAsBefore P.takes P.gives pieces.old pieces.new }
{
    fill_alone(&mut pieces[0], items, values);
}

// Writes the values of the items by one worker.
fn fill_alone<I, O: Drop, P: Piece<I, O>>(piece: &mut P, items: &[I], values: &mut [O])
    requires taken { AllByRecursion (P.takes piece.old) items.now }
    requires places { length values.old ≡ length items.now }
    ensures values { AllZip (P.gives piece.old) items.now values.new }
    ensures piece { IsAsBefore P.takes P.gives piece.old piece.new }
{
    for (k, item) in items.iter().enumerate() {
        values[k] = piece.one(item);
    }
}
