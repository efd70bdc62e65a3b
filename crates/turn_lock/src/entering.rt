//! How a caller gets the lock.
ghost use Rattle.std.specs.Prelude.{◌≡◌, ◌≢◌, ◌≤◌, [], IfSome, IfNone};
ghost use Rattle.turn_lock.specs.declared.seats.Stage.TheVariants.{Idle};
ghost use Rattle.turn_lock.specs.inside.Places.{IsBoard, IsNow, TookOut};

use crate::queues::{Next, Queue, Queues};
use crate::seats::{CallerSeat, FREE, Kept, SharedBoard};
use crate::stands::Stands;
use crate::steps::take;
use std::sync::Wait;

/// Takes the lock if it is free; else queues after those that wait, and sleeps until it is let in.
pub(crate) fn enter<T: Stands, R: Wait>(
    rt: &R,
    queues: &Queues,
    board: &SharedBoard<T>,
    place: &mut CallerSeat<T>,
    is_brief: bool,
) -> Kept<T>
    requires ours { IsBoard board.now.table_id × (place.old.table_id ≡ board.now.table_id) }
    requires idle { (place.old.me.0.stage ≡ Idle) × (1 ≤ place.old.me.0.left) × (place.old.me.1 ≡ []) }
    ensures { TookOut T.opening T.legal T.stands place.old place.new result }
{
    let free = take(board, place, FREE);
    if let Some(kept) = free {
        return kept;
    }
    let queue = queues.queue(is_brief);
    let number = queue.come();
    let me = if is_brief {
        Next::Brief(number)
    } else {
        Next::Other(number)
    };
    let word = me.word();
    let bell = queue.bell(number);
    for _ in rt.forever() {
        let asleep = bell.lie_down();
        let found = let_in(board, place, queue, number, word);
        if let Some(kept) = found {
            return kept;
        }
        bell.sleep(rt, asleep);
    }
    unreachable!()
}

/// Takes the lock if it is kept for this caller, or if it is free and the caller is the first of its queue.
fn let_in<T: Stands>(
    board: &SharedBoard<T>,
    place: &mut CallerSeat<T>,
    queue: &Queue,
    number: u64,
    word: u64,
) -> Option<Kept<T>>
    requires ours { IsBoard board.now.table_id × (place.old.table_id ≡ board.now.table_id) }
    requires idle { (place.old.me.0.stage ≡ Idle) × (1 ≤ place.old.me.0.left) × (place.old.me.1 ≡ []) }
    requires word { word ≢ 1 }
    ensures taken { IfSome result (λ kept. TookOut T.opening T.legal T.stands place.old place.new kept) }
    ensures missed { IfNone result (IsNow place.old place.new place.old.me) }
{
    let mine = take(board, place, word);
    if let Some(kept) = mine {
        return Some(kept);
    }
    if !queue.is_first(number) {
        return None;
    }
    let free = take(board, place, FREE);
    if free.is_some() {
        queue.let_first_in();
    }
    free
}
