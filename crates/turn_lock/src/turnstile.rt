ghost use Rattle.std.specs.Prelude.{◌≡◌, ◌≤◌, List, [], ◌∷◌, length, take, Some, None, IfOk, IfErr};
ghost use Rattle.policy_types.specs.declared.entry.Entry.{Entry};
ghost use Rattle.turn_lock.specs.Passes.{IsLent};
ghost use Rattle.turn_lock.specs.declared.seats.Stage.TheVariants.{Inside};
ghost use Rattle.turn_lock.specs.inside.Seats.{SeatFacts, handed_on};
ghost use Rattle.turn_lock.specs.inside.Places.{IsBoard, IsNow};

use crate::entering::enter;
use crate::pass::Pass;
use crate::queues::{Next, Queues};
use crate::seats::{Board, CallerSeat, FREE, Kept, SharedBoard, VALUE};
use crate::stands::Stands;
use crate::steps::{give, join, name, split};
use crate::turn::{Turn, Turned};
use memory_requests::{NoMemory, NoTable, push_first, table_of};
use std::alloc::Global;
use std::marker::{Brand, Model};
use std::snapshot::Snapshot;
use std::sync::Wait;

/// A lock around a value, whose turns form one history. Contracts see which turnstile it is.
pub struct Turnstile<T: Stands> {
    board: Board<T>,
    /// The callers that wait.
    queues: Queues,
}

impl<T: Stands> Model for Turnstile<T> {
    ghost use Rattle.turn_lock.specs.Passes.{TableId};
    ghost use Rattle.turn_lock.specs.inside.Places.{IsBoard};

    ghost Value = { TableId };

    ghost view = { λ t. t.board.shared.table_id };

    ghost invariant = { λ t. IsBoard t.board.shared.table_id };
}

/// Memory was refused. The value comes back.
#[derive(Drop)]
pub struct NoRoom<T> {
    pub value: T,
    pub lack: NoMemory,
}

impl<T: Stands> Turnstile<T> {
    ghost use Rattle.turn_lock.specs.Passes.{PassFacts, all_shares, IsFirst, Enters, LeavesLock, TakesTurn, OwnsAll};

    /// A turnstile around this value, and its first pass, which has all turns and all shares.
    pub fn new(alloc: Global, value: T) -> Result<(Turnstile<T>, Pass<T>), NoRoom<T>>
        requires { T.stands value [] }
        ensures ok { IfOk result (λ made. IsFirst (T.opening value) made.1 × (made.1.turnstile ≡ made.0)) }
        ensures facts { IfOk result (λ made. PassFacts T.legal made.1) }
        ensures err { IfErr result (λ refused. refused.value ≡ value) }
    {
        let queues = Queues::new();
        let first = Snapshot::of(&value);
        let mut slots = Vec::new(alloc);
        if let Err(failed) = push_first(&mut slots, Some(Kept::first(value))) {
            slots.destroy_empty();
            return Err(NoRoom {
                value: failed.item.unwrap().into_value(),
                lack: failed.lack,
            });
        }
        match table_of(alloc, &[FREE, 1], slots, &first) {
            Ok((board, place)) => {
                let pass = Pass {
                    place,
                    caller: 0,
                    left: 1 << 62,
                    shares: 1 << 32,
                };
                Ok((Turnstile { board, queues }, pass))
            }
            Err(NoTable { mut slots, lack }) => {
                let value = slots.pop().unwrap().unwrap().into_value();
                slots.destroy_empty();
                Err(NoRoom { value, lack })
            }
        }
    }

    /// A new pass for another caller, with half of what this pass has. It waits for nobody and asks for no memory.
    pub fn enter(&self, pass: &mut Pass<T>) -> Pass<T>
        requires ours { pass.old.turnstile ≡ self.now }
        requires room { (3 ≤ pass.old.left) × (2 ≤ pass.old.shares) }
        ensures enters { Enters pass.old pass.new result }
        ensures facts { PassFacts T.legal result }
    {
        let shared = &self.board.shared;
        let mut place = split(shared, &mut pass.place);
        let caller = name(shared, &mut place);
        let left = (pass.left - 1) / 2;
        let shares = pass.shares / 2;
        pass.left -= left + 1;
        pass.shares -= shares;
        Pass {
            place,
            caller,
            left,
            shares,
        }
    }

    /// Takes another pass back, with all that it has. It waits for nobody and asks for no memory.
    pub fn leave(&self, gone: Pass<T>, pass: &mut Pass<T>)
        requires ours { (gone.turnstile ≡ self.now) × (pass.old.turnstile ≡ self.now) }
        ensures leaves { LeavesLock gone pass.old pass.new }
        ensures facts { PassFacts T.legal pass.new }
    {
        let left = gone.left();
        let shares = gone.shares();
        join(&self.board.shared, &mut pass.place, gone.into_place());
        pass.left += left;
        pass.shares += shares;
    }

    /// Takes a turn: waits until nobody else is in one, runs the call on the value, and hands the lock on. The
    /// turnstile itself asks for no memory.
    pub fn turn<C: Turn<T>, R: Wait>(
        &self,
        rt: &R,
        pass: &mut Pass<T>,
        call: C,
    ) -> Turned<C::Answer>
        requires ours { pass.old.turnstile ≡ self.now }
        requires left { 1 ≤ pass.old.left }
        requires needs { C.needs call pass.old.caller pass.old.seen pass.old.made }
        ensures turn { TakesTurn result.turn (C.entry call pass.old.caller result.answer) pass.old pass.new }
        ensures tells { (opening : T.Opening) → pass.new.opening ≡ Some opening → C.tells call opening (take result.turn pass.new.seen) result.answer }
        ensures facts { PassFacts T.legal pass.new }
    {
        let shared = &self.board.shared;
        let kept = enter(rt, &self.queues, shared, &mut pass.place, call.is_brief());
        let (turned, next) = serve(
            shared,
            &self.queues,
            &mut pass.place,
            kept,
            call,
            pass.caller,
        );
        self.queues.ring(next);
        pass.left -= 1;
        turned
    }

    /// The value, given the pass that has all shares: every other pass was taken back into it, and what it has seen
    /// is the whole history. It waits for nobody.
    pub fn close(self, pass: Pass<T>) -> T
        requires ours { pass.turnstile ≡ self }
        requires all { pass.shares ≡ all_shares }
        ensures stood { T.stands result pass.seen }
        ensures opened { pass.opening ≡ Some (T.opening result) }
        ensures whole { OwnsAll pass }
        ensures facts { PassFacts T.legal pass }
    {
        let Turnstile { board, queues: _ } = self;
        let mut closed = board.close_with(pass.into_place());
        let value = closed.take(VALUE).unwrap().into_value();
        closed.free();
        value
    }
}

/// Runs the call on the value that is out with the seat, and hands the lock on. Returns to whom.
fn serve<T: Stands, C: Turn<T>>(
    board: &SharedBoard<T>,
    queues: &Queues,
    place: &mut CallerSeat<T>,
    kept: Kept<T>,
    call: C,
    caller: u64,
) -> (Turned<C::Answer>, Next)
    requires ours { IsBoard board.now.table_id × (place.old.table_id ≡ board.now.table_id) }
    requires inside { (place.old.me.0.stage ≡ Inside) × (1 ≤ place.old.me.0.left) × (place.old.me.1 ≡ (0, None) ∷ []) }
    requires caller { caller ≡ place.old.me.0.number }
    requires lent { (seen : List Entry) × IsLent T.stands (C.needs call) kept.value caller place.old.me.0.seen seen place.old.me.0.made }
    requires opened { place.old.me.0.opened ≡ Some (T.opening kept.value) }
    requires turns { kept.turns ≡ length place.old.me.0.seen }
    ensures now { IsNow place.old place.new (handed_on place.old.me.0 (C.entry call caller result.0.answer), []) }
    ensures place { result.0.turn ≡ length place.old.me.0.seen }
    ensures tells { C.tells call (T.opening kept.value) place.old.me.0.seen result.0.answer }
    ensures facts { SeatFacts T.legal place.new.me.0 }
{
    let Kept {
        mut value,
        turns: turn,
        mut passed,
    } = kept;
    let asked = Snapshot::of(&call);
    let is_light = call.is_light();
    let answer = call.run(&mut value, caller);
    let next = queues.next(&mut passed, is_light);
    let kept = Kept {
        value,
        turns: turn + 1,
        passed,
    };
    give::<T, Brand, C>(board, place, kept, next.word(), &asked, caller, &answer);
    (Turned { turn, answer }, next)
}
