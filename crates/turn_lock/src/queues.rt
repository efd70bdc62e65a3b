//! Callers that wait for the lock: in which order they are let in, and where they sleep. No contract depends on it.
ghost use Rattle.std.specs.Prelude.{◌≢◌};

use crate::seats::{FREE, Streak, Streaks};
use std::sync::Wait;
use std::sync::atomic::AtomicU64;
use std::sync::atomic::Ordering::SeqCst;

/// A light turn takes about an eighth of the time of another turn, and much less than waking a thread.
const LIGHT: u64 = 1;

const HEAVY: u64 = 8;

/// Consecutive turns of this total weight may pass the brief turn that has waited longest.
const MOST_BEFORE_BRIEF: u64 = 5 * HEAVY;

/// Consecutive turns of this total weight may pass the other turn that has waited longest.
const MOST_BEFORE_OTHERS: u64 = 8 * HEAVY;

/// For whom the lock is, once it is given back.
#[derive(Clone, Copy, Drop)]
pub(crate) enum Next {
    Anybody,
    /// The brief turn with this number in its queue.
    Brief(u64),
    /// The other turn with this number in its queue.
    Other(u64),
}

impl Next {
    /// The lock's word.
    pub(crate) fn word(self) -> u64
        ensures { result ≢ 1 }
    {
        match self {
            Next::Anybody => FREE,
            Next::Other(number) => number % (1 << 62) * 2 + 2,
            Next::Brief(number) => number % (1 << 62) * 2 + 3,
        }
    }
}

/// The callers that wait. A free lock may be taken by anybody. Once the consecutive turns that passed the caller who
/// has waited longest reach the weight that is allowed, the lock is kept for that caller.
#[derive(Drop)]
pub(crate) struct Queues {
    brief: Queue,
    others: Queue,
}

/// Callers that wait, in the order in which they came.
#[derive(Drop)]
pub(crate) struct Queue {
    /// Consecutive turns of this total weight may pass the first of the queue.
    most: u64,
    came: AtomicU64,
    /// How many of these were let in. Whoever has the lock writes it.
    let_in: AtomicU64,
    /// The caller with number n in the queue sleeps at bell n % 8.
    bells: [Bell; 8],
}

/// A number that only rises. It is odd while somebody may be asleep at it.
#[derive(Drop)]
pub(crate) struct Bell {
    rung: AtomicU64,
}

impl Queues {
    pub(crate) fn new() -> Queues {
        Queues {
            brief: Queue::new(MOST_BEFORE_BRIEF),
            others: Queue::new(MOST_BEFORE_OTHERS),
        }
    }

    pub(crate) fn queue(&self, is_brief: bool) -> &Queue {
        if is_brief { &self.brief } else { &self.others }
    }

    /// Counts the turn that ends, and returns for whom the lock is next.
    pub(crate) fn next(&self, passed: &mut Streaks, is_light: bool) -> Next {
        let weight = if is_light { LIGHT } else { HEAVY };
        let other_is_due = self.others.is_due(&mut passed.others, weight);
        let brief_is_due = self.brief.is_due(&mut passed.brief, weight);
        if other_is_due {
            Next::Other(self.others.let_first_in())
        } else if brief_is_due {
            Next::Brief(self.brief.let_first_in())
        } else {
            Next::Anybody
        }
    }

    /// Wakes the caller for whom the lock was given. If it is anybody's, one caller that waits checks whether it is
    /// still free.
    pub(crate) fn ring(&self, next: Next) {
        match next {
            Next::Other(number) => self.others.bell(number).ring(),
            Next::Brief(number) => self.brief.bell(number).ring(),
            Next::Anybody => {
                if self.others.is_waited_in() {
                    self.others.wake_first();
                } else {
                    self.brief.wake_first();
                }
            }
        }
    }
}

impl Queue {
    fn new(most: u64) -> Queue {
        Queue {
            most,
            came: AtomicU64::new(0),
            let_in: AtomicU64::new(0),
            bells: [
                Bell::new(),
                Bell::new(),
                Bell::new(),
                Bell::new(),
                Bell::new(),
                Bell::new(),
                Bell::new(),
                Bell::new(),
            ],
        }
    }

    /// Queues after the others, and returns the caller's number.
    pub(crate) fn come(&self) -> u64 {
        self.came.fetch_add(1, SeqCst)
    }

    pub(crate) fn bell(&self, number: u64) -> &Bell {
        &self.bells[(number % 8) as usize]
    }

    pub(crate) fn is_first(&self, number: u64) -> bool {
        self.let_in.load(SeqCst) == number
    }

    /// Lets the first of the queue in, which only the caller that has the lock may do, and returns its number.
    pub(crate) fn let_first_in(&self) -> u64 {
        self.let_in.fetch_add(1, SeqCst)
    }

    fn is_waited_in(&self) -> bool {
        self.let_in.load(SeqCst) != self.came.load(SeqCst)
    }

    /// Counts a turn of this weight that passed the first of the queue, and returns whether the limit is reached.
    fn is_due(&self, passed: &mut Streak, turn: u64) -> bool {
        let first = self.let_in.load(SeqCst);
        let before = if passed.first == first {
            passed.weight
        } else {
            0
        };
        let is_waited_in = self.came.load(SeqCst) != first;
        let weight = if is_waited_in {
            before.saturating_add(turn)
        } else {
            0
        };
        *passed = Streak { first, weight };
        weight >= self.most
    }

    fn wake_first(&self) {
        let number = self.let_in.load(SeqCst);
        if self.came.load(SeqCst) != number {
            self.bell(number).ring();
        }
    }
}

impl Bell {
    fn new() -> Bell {
        Bell {
            rung: AtomicU64::new(0),
        }
    }

    /// Announces that somebody is about to sleep, and returns the number to sleep at. A caller that checks only after
    /// this call whether it has to sleep misses no ring.
    pub(crate) fn lie_down(&self) -> u64 {
        let rung = self.rung.load(SeqCst);
        let asleep = rung | 1;
        let _ = self.rung.compare_exchange(rung, asleep, SeqCst, SeqCst);
        asleep
    }

    pub(crate) fn sleep<R: Wait>(&self, rt: &R, asleep: u64) {
        self.rung.park(rt, (asleep & 0xffff_ffff) as u32);
    }

    /// Wakes the callers that sleep here. If there is none, this costs one look.
    fn ring(&self) {
        let asleep = self.rung.load(SeqCst);
        let next = asleep.wrapping_add(1);
        if asleep % 2 == 1
            && self
                .rung
                .compare_exchange(asleep, next, SeqCst, SeqCst)
                .is_ok()
        {
            self.rung.wake_all();
        }
    }
}
