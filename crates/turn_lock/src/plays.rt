//! What each kind of step does and establishes.

use crate::seats::{Kept, View};
use crate::stands::Stands;
use atomic_table::{Join, Play, Split};
use policy_types::Entry;
use std::marker::{Brand, PhantomData};

/// A seat gives half of what it has to a new one.
pub(crate) struct Halves;

impl<O> Split<View<O>> for Halves {
    ghost use Rattle.turn_lock.specs.inside.Seats.{kept_half, given_half};

    ghost left = { kept_half };

    ghost right = { given_half };
}

/// A seat takes another back.
pub(crate) struct Joins;

impl<O> Join<View<O>> for Joins {
    ghost use Rattle.turn_lock.specs.inside.Seats.{joined, spent_view};

    ghost both = { joined };

    ghost spent = { spent_view };
}

/// A new seat gets its number.
pub(crate) struct Names<T> {
    value: PhantomData<T>,
}

impl<T: Stands> Play<Option<Kept<T>>, View<T::Opening>> for Names<T> {
    ghost use Rattle.turn_lock.specs.inside.Steps as steps;

    ghost then = { steps.Names T.legal };
}

/// A seat takes the lock, and with it the value, if it finds the word that it looks for.
pub(crate) struct TakesLock<T> {
    value: PhantomData<T>,
}

impl<T: Stands> Play<Option<Kept<T>>, View<T::Opening>> for TakesLock<T> {
    ghost use Rattle.turn_lock.specs.inside.Steps as steps;

    ghost then = { steps.TakesLock T.opening T.legal T.stands };
}

/// A seat sees that both lists of the last join are beginnings of one history.
pub(crate) struct Compares<T> {
    value: PhantomData<T>,
}

impl<T: Stands> Play<Option<Kept<T>>, View<T::Opening>> for Compares<T> {
    ghost use Rattle.turn_lock.specs.inside.Steps as steps;

    ghost then = { steps.Compares T.legal };
}

/// The entry that a hand-on adds, chosen where the step is called.
pub(crate) trait Appended {
    ghost use Rattle.policy_types.specs.declared.entry.Entry.{Entry};

    ghost appended: { Entry };
}

impl Appended for Brand {
    ghost use Rattle.policy_types.specs.declared.entry.Call.TheVariants.{Trim};
    ghost use Rattle.policy_types.specs.declared.entry.Reply.TheVariants.{Blank};

    ghost appended = { record { caller = 0; call = Trim; reply = Blank } };
}

/// A seat gives the value back, and its turn adds one entry to the history.
pub(crate) struct HandsOn<T, E> {
    value: PhantomData<(T, E)>,
}

impl<T: Stands, E: Appended> Play<Option<Kept<T>>, View<T::Opening>> for HandsOn<T, E> {
    ghost use Rattle.turn_lock.specs.inside.Steps as steps;

    ghost then = { steps.HandsOn T.legal E.appended };
}
