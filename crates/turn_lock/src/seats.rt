//! What a seat at the lock's table knows, and the table's rule.

use crate::stands::Stands;
use atomic_table::{Seat, Shared, Table, TableRule};
use policy_types::Entry;
use std::alloc::Global;
use std::collections::LinkedList;
use std::marker::PhantomData;
use std::snapshot::Snapshot;

/// The stage of a seat.
pub enum Stage {
    /// It was taken back into another seat.
    Spent,
    /// It has no number yet, and has set aside one unit for it.
    Unnamed,
    Idle,
    /// It has the value out.
    Inside,
}

/// What a seat knows. Only contracts read it: no value of it is made.
pub struct View<O> {
    pub stage: Stage,
    pub number: u64,
    /// The count of numbers given, among which are its own and those of the ended seats.
    pub names: u64,
    pub left: u64,
    pub shares: u64,
    /// `None` only if the seat is spent.
    pub opened: Option<O>,
    pub seen: LinkedList<Entry>,
    pub made: LinkedList<Entry>,
    /// The shorter list of the last join, until a step has shown that both are beginnings of the history.
    pub also: LinkedList<Entry>,
    pub ended: LinkedList<(u64, LinkedList<Entry>)>,
}

/// What is in the lock's slot.
pub struct Kept<T> {
    pub value: T,
    /// How many turns were taken.
    pub turns: u64,
    pub passed: Streaks,
}

impl<T> Kept<T> {
    ghost use Rattle.std.specs.Prelude.{◌≡◌};

    /// The value before any turn.
    pub(crate) fn first(value: T) -> Kept<T>
        ensures { (result.value ≡ value) × (result.turns ≡ 0) }
    {
        let none = Streak {
            first: 0,
            weight: 0,
        };
        Kept {
            value,
            turns: 0,
            passed: Streaks {
                brief: none,
                others: none,
            },
        }
    }

    pub(crate) fn into_value(self) -> T
        ensures { result ≡ self.value }
    {
        let Kept {
            value,
            turns: _,
            passed: _,
        } = self;
        value
    }
}

/// For each queue, the consecutive turns that passed those who wait. No contract depends on it.
#[derive(Clone, Copy, Drop)]
pub struct Streaks {
    pub brief: Streak,
    pub others: Streak,
}

/// The total weight of consecutive turns that passed the caller with this number while it was the first of its queue.
#[derive(Clone, Copy, Drop)]
pub struct Streak {
    pub first: u64,
    pub weight: u64,
}

/// The lock's rule, for the opening of the value with which the table was made.
pub struct Law<T> {
    value: PhantomData<T>,
}

impl<T: Stands> TableRule<Option<Kept<T>>, View<T::Opening>, Snapshot<T>> for Law<T> {
    ghost use Rattle.turn_lock.specs.inside.Seats.{first_view};
    ghost use Rattle.turn_lock.specs.inside.Rule.{LockRule};

    ghost holds = { λ key. LockRule T.opening T.legal T.stands (T.opening key.value) };

    ghost first = { λ key. first_view (T.opening key.value) };
}

/// Word 0 is the lock, word 1 counts the numbers given. The only slot holds the value.
pub(crate) type Board<T> = Table<
    Option<Kept<T>>,
    View<<T as Stands>::Opening>,
    Snapshot<T>,
    Law<T>,
    Global,
>;

/// The table as several threads share it.
pub(crate) type SharedBoard<T> = Shared<
    Option<Kept<T>>,
    View<<T as Stands>::Opening>,
    Snapshot<T>,
    Law<T>,
>;

pub(crate) type CallerSeat<T> = Seat<Option<Kept<T>>, View<<T as Stands>::Opening>>;

/// The word of the lock: free, taken, or kept for a caller that waits.
pub(crate) const LOCK: usize = 0;
/// The word that counts the numbers given.
pub(crate) const NAMES: usize = 1;
/// Anybody may take the lock.
pub(crate) const FREE: u64 = 0;
/// A seat is inside.
pub(crate) const TAKEN: u64 = 1;
/// The slot of the value.
pub(crate) const VALUE: usize = 0;
