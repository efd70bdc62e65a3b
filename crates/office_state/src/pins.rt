// Positions are pinned, and pins are given up.
ghost use Rattle.std.specs.Prelude.{◌≡◌, ◌+◌, ◌^◌, ◌<◌, ◌≤◌, ◌==◌, ◌++◌, [], ◌∷◌, not, IfOk, List, length, take, filter, MatchResult};
ghost use Rattle.office_state.specs.Names.{Entry, book};
ghost use Rattle.office_state.specs.Pins.{IsHeldBy};
ghost use Rattle.office_state.specs.Standing.{StandsFor};
ghost use Rattle.office_state.specs.States.{disk_of, opened_of, outlet_of, pins_of, turns_of};
ghost use Rattle.office_state.specs.Turning.{pin_turn, pin_at_turn, unpin_turn};
ghost use Rattle.office_state.specs.inside.Books.{commands_in};
ghost use Rattle.office_state.specs.inside.Pinning.{HasTaken, IsFull};

use crate::books::Books;
use crate::held::{Held, PinInfo, Pins};
use crate::state::OfficeState;
use arrayvec::ArrayVec;
use outside_io::Disk;
use policy_types::PinRefusal;
use watcher_set::Watching;

impl<D: Disk, W: Watching> OfficeState<D, W> {
    /// Pins the accepted commands as they stand.
    pub fn pin(&mut self, caller: u64) -> Result<PinInfo, PinRefusal>
        requires turns { turns_of self.old < 2 ^ 62 }
        ensures opened { opened_of self.new ≡ opened_of self.old }
        ensures disk { disk_of self.new ≡ disk_of self.old }
        ensures outlet { outlet_of self.new ≡ outlet_of self.old }
        ensures number { IfOk result (λ info. info.number ≡ turns_of self.old) }
        ensures stands { (history : List Entry) → StandsFor self.old history
            → StandsFor self.new (history ++ pin_turn caller result ∷ []) }
    {
        let number = self.turns;
        self.turns += 1;
        hold(
            &mut self.pins,
            &self.books,
            number,
            caller,
            self.books.count(),
        )
    }

    /// Pins the first `p` accepted commands. It is answered first whether there are so many, then whether they are
    /// still kept, then whether a pin more may be live.
    pub fn pin_at(&mut self, caller: u64, p: u32) -> Result<PinInfo, PinRefusal>
        requires turns { turns_of self.old < 2 ^ 62 }
        ensures opened { opened_of self.new ≡ opened_of self.old }
        ensures disk { disk_of self.new ≡ disk_of self.old }
        ensures outlet { outlet_of self.new ≡ outlet_of self.old }
        ensures number { IfOk result (λ info. info.number ≡ turns_of self.old) }
        ensures stands { (history : List Entry) → StandsFor self.old history
            → StandsFor self.new (history ++ pin_at_turn caller p result ∷ []) }
    {
        let number = self.turns;
        self.turns += 1;
        let count = self.books.count();
        if count < p {
            return Err(PinRefusal::Ahead(count));
        }
        let floor = self.books.floor();
        if p < floor {
            return Err(PinRefusal::Trimmed(floor));
        }
        hold(&mut self.pins, &self.books, number, caller, p)
    }

    /// Gives a pin of the caller's up.
    pub fn unpin(&mut self, caller: u64, pin: u64)
        requires turns { turns_of self.old < 2 ^ 62 }
        requires held { IsHeldBy (pins_of self.old) caller pin }
        ensures opened { opened_of self.new ≡ opened_of self.old }
        ensures disk { disk_of self.new ≡ disk_of self.old }
        ensures outlet { outlet_of self.new ≡ outlet_of self.old }
        ensures stands { (history : List Entry) → StandsFor self.old history
            → StandsFor self.new (history ++ unpin_turn caller pin ∷ []) }
    {
        self.pins = without(&self.pins, pin);
        self.turns += 1;
    }
}

// Takes a pin of this number, where one more may be live.
fn hold(
    pins: &mut Pins,
    books: &Books,
    number: u64,
    caller: u64,
    position: u32,
) -> Result<PinInfo, PinRefusal>
    ensures { MatchResult result
        (λ info. HasTaken pins.old.items pins.new.items (book (take position (commands_in books.now))) number caller
        position info)
        (λ refusal. IsFull pins.old.items pins.new.items refusal) }
{
    if pins.is_full() {
        return Err(PinRefusal::PinsFull);
    }
    let policies = books.policies(position);
    pins.push(Held {
        number,
        caller,
        position,
        policies,
    });
    Ok(PinInfo {
        number,
        position,
        policies,
    })
}

// The pins but that of a number.
fn without(pins: &Pins, number: u64) -> Pins
    ensures { result.items ≡ filter (λ held. not (number == held.number)) pins.now.items }
{
    let mut others = ArrayVec::new();
    for held in pins.as_slice() {
        if held.number != number {
            others.push(*held);
        }
    }
    others
}
