// The items are cut into parts, and each worker takes the next part that none has taken, until none is left. So a
// worker whose processor is slow, or is busy with other work, delays nobody.
//
// No clause says which parts a worker takes, and none is needed: what a worker made of a part is that part's values,
// whoever made them. At the end every part is looked up, and a part that isn't found is made then.
ghost use Rattle.std.specs.Prelude.{◌≡◌, ◌≤◌, ◌++◌, ℕ, List, IfOk, IfSome, OnErr, OnOk, length, map, take, drop};
ghost use Rattle.std.specs.List.{AllByRecursion, AllZip, IsAmong};
ghost use Rattle.std.specs.Thread.{IsSync, IsSend};
ghost use Rattle.std.specs.Mem.{type_size};
ghost use Rattle.parallel_value.specs.Pieces.{AddsBehind, AreAsBefore, AreValues, Compute, IsAsBefore, StandBehind, TakeAll};
ghost use Rattle.parallel_value.specs.inside.Parts.{AreMadeParts, IsMadePart, IsOneOf};

use crate::Piece;
use crate::mapping::{both, map_alone};
use memory_requests::{NoMemory, extend, push};
use std::alloc::Global;
use std::sync::atomic::{AtomicUsize, Ordering};
use std::thread::{Threads, join_mut};

/// What one worker made of one part: the values of its items, and the index of the first item.
#[derive(Drop)]
pub(crate) struct Made<O> {
    first: usize,
    values: Vec<O>,
}

/// The values of the items, in their order, in a list of their own. Only tests call this; programs call `map_onto`.
pub fn map_in<R: Threads + Sync, I: Sync, O: Copy + Send + Drop, P: Piece<I, O> + Send>(
    rt: &R,
    alloc: Global,
    pieces: &mut [P],
    items: &[I],
    items_in_part: usize,
) -> Result<Vec<O>, NoMemory>
    requires sized { 1 ≤ type_size O.row }
    requires workers { (1 ≤ length pieces.old) × (length pieces.old ≤ 64) }
    requires taken { TakeAll P.takes pieces.old items.now }
    requires part { 1 ≤ items_in_part }
    ensures values { IfOk result (λ values. AreValues P.gives pieces.old items.now values.items) }
    ensures function { (f : I → O) → Compute P.gives pieces.old f → IfOk result (λ values. values.items ≡ map f items.now) }
    ensures pieces { AreAsBefore P.takes P.gives pieces.old pieces.new }
{
    let mut values = Vec::new(alloc);
    map_onto(rt, alloc, pieces, items, items_in_part, &mut values)?;
    Ok(values)
}

/// Adds the values of the items, in their order, to the values that are there. After `NoMemory` only the old values
/// are there. A part has `items_in_part` items, and the last one may have fewer: few enough that the last parts take
/// little time, and enough that taking a part costs little beside it. No more workers are started than there are
/// parts; each but one has a thread of its own, and a single worker starts none.
pub fn map_onto<R: Threads + Sync, I: Sync, O: Copy + Send + Drop, P: Piece<I, O> + Send>(
    rt: &R,
    alloc: Global,
    pieces: &mut [P],
    items: &[I],
    items_in_part: usize,
    values: &mut Vec<O>,
) -> Result<(), NoMemory>
    requires sized { 1 ≤ type_size O.row }
    requires workers { (1 ≤ length pieces.old) × (length pieces.old ≤ 64) }
    requires taken { TakeAll P.takes pieces.old items.now }
    requires part { 1 ≤ items_in_part }
    ensures values { OnOk result (AddsBehind (AreValues P.gives pieces.old items.now) values.old.items values.new.items) }
    ensures refused { OnErr result (values.new.items ≡ values.old.items) }
    ensures pieces { AreAsBefore P.takes P.gives pieces.old pieces.new }
{
    let before = values.len();
    let added = add_by_few(rt, alloc, pieces, items, items_in_part, values);
    if added.is_err() {
        values.truncate(before);
    }
    added
}

// Adds the values of the items by as many workers as there are parts; if memory is refused for that, by fewer.
fn add_by_few<R: Threads + Sync, I: Sync, O: Copy + Send + Drop, P: Piece<I, O> + Send>(
    rt: &R,
    alloc: Global,
    pieces: &mut [P],
    items: &[I],
    items_in_part: usize,
    values: &mut Vec<O>,
) -> Result<(), NoMemory>
    requires sized { 1 ≤ type_size O.row }
    requires workers { (1 ≤ length pieces.old) × (length pieces.old ≤ 64) }
    requires taken { TakeAll P.takes pieces.old items.now }
    requires part { 1 ≤ items_in_part }
    ensures values { OnOk result (AddsBehind (AreValues P.gives pieces.old items.now) values.old.items values.new.items) }
    ensures behind { StandBehind values.old.items values.new.items }
    ensures pieces { AreAsBefore P.takes P.gives pieces.old pieces.new }
{
    let parts = items.len().div_ceil(items_in_part);
    let (at_work, _) = pieces.split_at_mut(parts.clamp(1, pieces.len()));
    add_all(rt, alloc, at_work, items, items_in_part, values)
}

// Adds the values of the items by all workers.
fn add_all<R: Threads + Sync, I: Sync, O: Copy + Send + Drop, P: Piece<I, O> + Send>(
    rt: &R,
    alloc: Global,
    pieces: &mut [P],
    items: &[I],
    items_in_part: usize,
    values: &mut Vec<O>,
) -> Result<(), NoMemory>
    requires sized { 1 ≤ type_size O.row }
    requires workers { (1 ≤ length pieces.old) × (length pieces.old ≤ 64) }
    requires taken { TakeAll P.takes pieces.old items.now }
    requires part { 1 ≤ items_in_part }
    ensures values { OnOk result (AddsBehind (AreValues P.gives pieces.old items.now) values.old.items values.new.items) }
    ensures behind { StandBehind values.old.items values.new.items }
    ensures pieces { AreAsBefore P.takes P.gives pieces.old pieces.new }
{
    if pieces.len() < 2 {
        return add_by_one(pieces, items, values);
    }
    let made = make_parts(
        rt,
        alloc,
        pieces,
        items,
        items_in_part,
        &AtomicUsize::new(0),
    )?;
    add_parts(
        &mut pieces[0],
        items,
        items_in_part,
        made.as_slice(),
        values,
    )
}

// Starts the first worker, and then the others.
#[cycle(sharing)]
fn make_parts<R: Threads + Sync, I: Sync, O: Copy + Send + Drop, P: Piece<I, O> + Send>(
    rt: &R,
    alloc: Global,
    pieces: &mut [P],
    items: &[I],
    items_in_part: usize,
    next: &AtomicUsize,
) -> Result<Vec<Made<O>>, NoMemory>
    requires sized { 1 ≤ type_size O.row }
    requires workers { (1 ≤ length pieces.old) × (length pieces.old ≤ 64) }
    requires taken { TakeAll P.takes pieces.old items.now }
    ensures made { IfOk result (λ made. AreMadeParts P.gives pieces.old items_in_part items.now made.items) }
    ensures pieces { AreAsBefore P.takes P.gives pieces.old pieces.new }
{
    if pieces.len() < 2 {
        return make_by_one(alloc, pieces, items, items_in_part, next);
    }
    let (front, back) = pieces.split_at_mut(1);
    make_both(rt, alloc, front, back, items, items_in_part, next)
}

// The first workers and the others make parts at the same time.
#[cycle(sharing)]
fn make_both<R: Threads + Sync, I: Sync, O: Copy + Send + Drop, P: Piece<I, O> + Send>(
    rt: &R,
    alloc: Global,
    front: &mut [P],
    back: &mut [P],
    items: &[I],
    items_in_part: usize,
    next: &AtomicUsize,
) -> Result<Vec<Made<O>>, NoMemory>
    requires sized { 1 ≤ type_size O.row }
    requires front { (1 ≤ length front.old) × (length front.old ≤ 64) }
    requires back { (1 ≤ length back.old) × (length back.old ≤ 64) }
    requires first { TakeAll P.takes front.old items.now }
    requires last { TakeAll P.takes back.old items.now }
    ensures made { IfOk result (λ made. AreMadeParts P.gives (front.old ++ back.old) items_in_part items.now made.items) }
    ensures front { AreAsBefore P.takes P.gives front.old front.new }
    ensures back { AreAsBefore P.takes P.gives back.old back.new }
{
    let (left, right) = join_mut(
        rt,
        &mut || -> Result<Vec<Made<O>>, NoMemory>
            requires sync { IsSync R.row × IsSync I.row × IsSend O.row × IsSend P.row }
            requires sized { 1 ≤ type_size O.row }
            requires workers { (1 ≤ length front.now) × (length front.now ≤ 64) }
            requires taken { TakeAll P.takes front.now items.now }
            ensures made { IfOk result (λ made. AreMadeParts P.gives front.entry.now items_in_part items.entry.now made.items) }
            ensures pieces { AreAsBefore P.takes P.gives front.entry.now front.exit.now }
        { make_parts(rt, alloc, front, items, items_in_part, next) },
        &mut || -> Result<Vec<Made<O>>, NoMemory>
            requires sync { IsSync R.row × IsSync I.row × IsSend O.row × IsSend P.row }
            requires sized { 1 ≤ type_size O.row }
            requires workers { (1 ≤ length back.now) × (length back.now ≤ 64) }
            requires taken { TakeAll P.takes back.now items.now }
            ensures made { IfOk result (λ made. AreMadeParts P.gives back.entry.now items_in_part items.entry.now made.items) }
            ensures pieces { AreAsBefore P.takes P.gives back.entry.now back.exit.now }
        { make_parts(rt, alloc, back, items, items_in_part, next) },
    );
    both(left, right)
}

// The single worker makes parts.
fn make_by_one<I, O: Drop, P: Piece<I, O>>(
    alloc: Global,
    pieces: &mut [P],
    items: &[I],
    items_in_part: usize,
    next: &AtomicUsize,
) -> Result<Vec<Made<O>>, NoMemory>
    requires sized { 1 ≤ type_size O.row }
    requires one { length pieces.old ≡ 1 }
    requires taken { TakeAll P.takes pieces.old items.now }
    ensures made { IfOk result (λ made. AreMadeParts P.gives pieces.old items_in_part items.now made.items) }
    ensures pieces { AreAsBefore P.takes P.gives pieces.old pieces.new }
{
    make_alone(alloc, &mut pieces[0], items, items_in_part, next)
}

// Takes one part after the other, until none is left. The counter is at the first item of the next part.
fn make_alone<I, O: Drop, P: Piece<I, O>>(
    alloc: Global,
    piece: &mut P,
    items: &[I],
    items_in_part: usize,
    next: &AtomicUsize,
) -> Result<Vec<Made<O>>, NoMemory>
    requires sized { 1 ≤ type_size O.row }
    requires taken { AllByRecursion (P.takes piece.old) items.now }
    ensures made { IfOk result (λ made. AllByRecursion (IsMadePart (P.gives piece.old) items_in_part items.now) made.items) }
    ensures piece { IsAsBefore P.takes P.gives piece.old piece.new }
{
    let mut made = Vec::new(alloc);
    for _ in 0..items.len() {
        let first = next.fetch_add(items_in_part, Ordering::SeqCst);
        if first >= items.len() {
            break;
        }
        let one = make_part(alloc, piece, items, items_in_part, first)?;
        push(&mut made, one)?;
    }
    Ok(made)
}

// Makes the part that begins with this item.
fn make_part<I, O: Drop, P: Piece<I, O>>(
    alloc: Global,
    piece: &mut P,
    items: &[I],
    items_in_part: usize,
    first: usize,
) -> Result<Made<O>, NoMemory>
    requires sized { 1 ≤ type_size O.row }
    requires within { first ≤ length items.now }
    requires taken { AllByRecursion (P.takes piece.old) items.now }
    ensures made { IfOk result (IsMadePart (P.gives piece.old) items_in_part items.now) }
    ensures piece { IsAsBefore P.takes P.gives piece.old piece.new }
{
    let values = map_alone(alloc, piece, part_at(items, items_in_part, first))?;
    Ok(Made { first, values })
}

// The items of the part that begins with this item.
fn part_at<I>(items: &[I], items_in_part: usize, first: usize) -> &[I]
    requires { first ≤ length items.now }
    ensures { result.now ≡ take items_in_part (drop first items.now) }
{
    let left = &items[first..];
    &left[..left.len().min(items_in_part)]
}

// Adds the values of all parts, in their order. The worker makes the parts that aren't there.
fn add_parts<I, O: Copy + Drop, P: Piece<I, O>>(
    piece: &mut P,
    items: &[I],
    items_in_part: usize,
    made: &[Made<O>],
    values: &mut Vec<O>,
) -> Result<(), NoMemory>
    requires sized { 1 ≤ type_size O.row }
    requires taken { AllByRecursion (P.takes piece.old) items.now }
    requires part { 1 ≤ items_in_part }
    ensures values { (workers : List P) → IsOneOf P.gives workers piece.old → AreMadeParts P.gives workers items_in_part items.now made.now
        → OnOk result (AddsBehind (AreValues P.gives workers items.now) values.old.items values.new.items) }
    ensures behind { StandBehind values.old.items values.new.items }
    ensures piece { IsAsBefore P.takes P.gives piece.old piece.new }
{
    let mut first = 0;
    while first < items.len() {
        let part = part_at(items, items_in_part, first);
        add_part(piece, part, found(made, first), values)?;
        first += part.len();
    }
    Ok(())
}

// Adds the values of a part. The worker makes them if they aren't there.
fn add_part<I, O: Copy + Drop, P: Piece<I, O>>(
    piece: &mut P,
    part: &[I],
    made: Option<&Made<O>>,
    values: &mut Vec<O>,
) -> Result<(), NoMemory>
    requires sized { 1 ≤ type_size O.row }
    requires taken { AllByRecursion (P.takes piece.old) part.now }
    ensures values { (workers : List P) → IsOneOf P.gives workers piece.old
        → IfSome made.entry (λ one. AreValues P.gives workers part.now one.now.values.items)
        → OnOk result (AddsBehind (AreValues P.gives workers part.now) values.old.items values.new.items) }
    ensures behind { StandBehind values.old.items values.new.items }
    ensures piece { IsAsBefore P.takes P.gives piece.old piece.new }
{
    match made {
        Some(made) => add_made(made, values),
        None => add_alone(piece, part, values),
    }
}

// Adds the values of a part that was made.
fn add_made<O: Copy + Drop>(made: &Made<O>, values: &mut Vec<O>) -> Result<(), NoMemory>
    requires sized { 1 ≤ type_size O.row }
    ensures added { OnOk result (values.new.items ≡ values.old.items ++ made.now.values.items) }
    ensures behind { StandBehind values.old.items values.new.items }
{
    extend(values, made.values.as_slice())
}

// The part that begins with this item, if it was made.
fn found<O>(made: &[Made<O>], first: usize) -> Option<&Made<O>>
    ensures { IfSome result (λ one. IsAmong made.now one.now × (one.now.first ≡ first)) }
{
    for one in made {
        if one.first == first {
            return Some(one);
        }
    }
    None
}

// The single worker adds the values of all items.
fn add_by_one<I, O: Drop, P: Piece<I, O>>(
    pieces: &mut [P],
    items: &[I],
    values: &mut Vec<O>,
) -> Result<(), NoMemory>
    requires sized { 1 ≤ type_size O.row }
    requires one { length pieces.old ≡ 1 }
    requires taken { TakeAll P.takes pieces.old items.now }
    ensures values { OnOk result (AddsBehind (AreValues P.gives pieces.old items.now) values.old.items values.new.items) }
    ensures behind { StandBehind values.old.items values.new.items }
    ensures pieces { AreAsBefore P.takes P.gives pieces.old pieces.new }
{
    add_alone(&mut pieces[0], items, values)
}

// A worker adds the values of items one after the other.
fn add_alone<I, O: Drop, P: Piece<I, O>>(
    piece: &mut P,
    items: &[I],
    values: &mut Vec<O>,
) -> Result<(), NoMemory>
    requires sized { 1 ≤ type_size O.row }
    requires taken { AllByRecursion (P.takes piece.old) items.now }
    ensures values { OnOk result (AddsBehind (AllZip (P.gives piece.old) items.now) values.old.items values.new.items) }
    ensures behind { StandBehind values.old.items values.new.items }
    ensures piece { IsAsBefore P.takes P.gives piece.old piece.new }
{
    for item in items {
        push(values, piece.one(item))?;
    }
    Ok(())
}
