ghost use Rattle.std.specs.Prelude.{◌≡◌};

use crate::seats::CallerSeat;
use crate::stands::Stands;
use std::marker::Model;

/// One caller's right to take turns. Contracts see it as what it has left, what it has seen and what it has made.
pub struct Pass<T: Stands> {
    pub(crate) place: CallerSeat<T>,
    pub(crate) caller: u64,
    pub(crate) left: u64,
    pub(crate) shares: u64,
}

impl<T: Stands> Model for Pass<T> {
    ghost use Rattle.turn_lock.specs.Passes.{Holding};
    ghost use Rattle.turn_lock.specs.inside.Places.{IsPass, holding};

    ghost Value = { Holding T.Opening };

    ghost view = { λ p. holding p.place };

    ghost invariant = { λ p. IsPass T.legal p.place.me p.caller p.left p.shares };
}

impl<T: Stands> Pass<T> {
    ghost use Rattle.turn_lock.specs.Passes.{PassFacts};
    ghost use Rattle.turn_lock.specs.inside.Places.{IsPass, holding};

    /// The caller's number. The facts that hold of every pass hold of this one.
    pub fn caller(&self) -> u64
        ensures number { result ≡ self.now.caller }
        ensures facts { PassFacts T.legal self.now }
    {
        self.caller
    }

    /// How many turns it may still take, or hand to new passes.
    pub fn left(&self) -> u64
        ensures { result ≡ self.now.left }
    {
        self.left
    }

    /// Its shares, of which there are 2^32 in all: whoever has all of them has the only pass.
    pub fn shares(&self) -> u64
        ensures { result ≡ self.now.shares }
    {
        self.shares
    }

    /// The pass's seat.
    pub(crate) fn into_place(self) -> CallerSeat<T>
        ensures same { holding result ≡ self }
        ensures pass { IsPass T.legal result.me self.caller self.left self.shares }
    {
        let Self {
            place,
            caller: _,
            left: _,
            shares: _,
        } = self;
        place
    }
}

impl<T: Stands> Drop for Pass<T> {
    fn drop(self) {
        let Self {
            place: _,
            caller: _,
            left: _,
            shares: _,
        } = self;
    }
}
