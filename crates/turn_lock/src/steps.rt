//! Each kind of step on the table, as a function with its own contract.
ghost use Rattle.std.specs.Prelude.{◌≡◌, ◌≢◌, ◌+◌, ◌≤◌, [], ◌∷◌, ◌++◌, length, Some, None, IfSome, IfNone};
ghost use Rattle.turn_lock.specs.History.{StartsWith, longer};
ghost use Rattle.turn_lock.specs.declared.seats.Stage.TheVariants.{Unnamed, Idle, Inside};
ghost use Rattle.turn_lock.specs.inside.Seats.{SeatFacts, shorter, kept_half, given_half, joined, compared, named, handed_on};
ghost use Rattle.turn_lock.specs.inside.Places.{IsBoard, IsNow, TookOut};

use crate::plays::{Appended, Compares, Halves, HandsOn, Joins, Names, TakesLock};
use crate::seats::{CallerSeat, Kept, LOCK, NAMES, SharedBoard, TAKEN, VALUE};
use crate::stands::Stands;
use crate::turn::Turn;
use std::snapshot::Snapshot;

/// Split: half of what the seat has goes to a new seat.
pub(crate) fn split<T: Stands>(board: &SharedBoard<T>, place: &mut CallerSeat<T>) -> CallerSeat<T>
    requires ours { IsBoard board.now.table_id × (place.old.table_id ≡ board.now.table_id) }
    requires idle { (place.old.me.0.stage ≡ Idle) × (1 ≤ place.old.me.0.left) × (2 ≤ place.old.me.0.shares) }
    ensures kept { IsNow place.old place.new (kept_half place.old.me.0, place.old.me.1) }
    ensures given { (result.table_id ≡ place.old.table_id) × (result.me ≡ (given_half place.old.me.0, [])) }
{
    board.split_seat::<Halves>(place)
}

/// Name: a new seat gets its number, which is given back.
pub(crate) fn name<T: Stands>(board: &SharedBoard<T>, place: &mut CallerSeat<T>) -> u64
    requires ours { IsBoard board.now.table_id × (place.old.table_id ≡ board.now.table_id) }
    requires unnamed { place.old.me.0.stage ≡ Unnamed }
    ensures now { IsNow place.old place.new (named place.old.me.0 result, place.old.me.1) }
    ensures fresh { place.old.me.0.names ≤ result }
    ensures facts { SeatFacts T.legal place.new.me.0 }
{
    board.fetch_add::<Names<T>>(place, NAMES, 1)
}

/// Take: if the lock's word is this one, the seat takes the value out; else nothing changes.
pub(crate) fn take<T: Stands>(
    board: &SharedBoard<T>,
    place: &mut CallerSeat<T>,
    word: u64,
) -> Option<Kept<T>>
    requires ours { IsBoard board.now.table_id × (place.old.table_id ≡ board.now.table_id) }
    requires idle { (place.old.me.0.stage ≡ Idle) × (1 ≤ place.old.me.0.left) × (place.old.me.1 ≡ []) }
    requires word { word ≢ 1 }
    ensures taken { IfSome result (λ kept. TookOut T.opening T.legal T.stands place.old place.new kept) }
    ensures missed { IfNone result (IsNow place.old place.new place.old.me) }
{
    if board.compare_exchange::<TakesLock<T>>(place, LOCK, word, TAKEN) == word {
        board.exchange(place, VALUE, None)
    } else {
        None
    }
}

/// Give: the value goes back into the slot, the lock gets its next word, and the history has the turn's entry.
pub(crate) fn give<T: Stands, E: Appended, C: Turn<T>>(
    board: &SharedBoard<T>,
    place: &mut CallerSeat<T>,
    kept: Kept<T>,
    word: u64,
    asked: &Snapshot<C>,
    caller: u64,
    answer: &C::Answer,
)
    requires ours { IsBoard board.now.table_id × (place.old.table_id ≡ board.now.table_id) }
    requires inside { (place.old.me.0.stage ≡ Inside) × (1 ≤ place.old.me.0.left) }
    requires word { word ≢ 1 }
    requires carried { place.old.me.1 ≡ (0, None) ∷ [] }
    requires entry { (E.appended ≡ C.entry asked.now.value caller answer.now) × (caller ≡ place.old.me.0.number) }
    requires stood { T.stands kept.value (place.old.me.0.seen ++ E.appended ∷ []) × (place.old.me.0.opened ≡ Some (T.opening kept.value)) }
    requires turns { kept.turns ≡ length place.old.me.0.seen + 1 }
    ensures now { IsNow place.old place.new (handed_on place.old.me.0 (C.entry asked.now.value caller answer.now), []) }
    ensures facts { SeatFacts T.legal place.new.me.0 }
{
    let emptied = board.exchange(place, VALUE, Some(kept));
    let None = emptied else {
        unreachable!();
    };
    board.store::<HandsOn<T, E>>(place, LOCK, word);
}

/// Join: a seat takes another back, and checks that the lists of both are beginnings of one history.
pub(crate) fn join<T: Stands>(
    board: &SharedBoard<T>,
    place: &mut CallerSeat<T>,
    other: CallerSeat<T>,
)
    requires ours { IsBoard board.now.table_id × (place.old.table_id ≡ board.now.table_id) × (other.table_id ≡ board.now.table_id) }
    requires idle { (place.old.me.0.stage ≡ Idle) × (other.me.0.stage ≡ Idle) × (other.me.1 ≡ []) }
    ensures now { IsNow place.old place.new (compared (joined place.old.me.0 other.me.0), place.old.me.1) }
    ensures nested { StartsWith (longer place.old.me.0.seen other.me.0.seen) (shorter place.old.me.0.seen other.me.0.seen) }
    ensures facts { SeatFacts T.legal place.new.me.0 }
{
    board.join_seat::<Joins>(place, other);
    board.load::<Compares<T>>(place, LOCK);
}
