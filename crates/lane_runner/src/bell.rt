//! Where the writer waits for lines. No contract rests on it.
//!
//! 1. The writer sleeps for the line of one lane. It names the lane, looks again, and sleeps.
//! 2. A lane rings behind each line that it tells. Unless it is named this is a look.
//! 3. Where several lines came in one sleep, they come faster than a wake-up. Then the writer naps for a millisecond, and
//!    nobody rings.
//!
//! So no ring is missed, and a line waits for a millisecond at most: a lane at a disk, whose line is the only one, rings.
ghost use Rattle.std.specs.Prelude.{◌≡◌, ◌+◌, ◌-◌, ◌^◌, if◌then◌else◌, min};

use std::sync::Wait;
use std::sync::atomic::AtomicU64;
use std::sync::atomic::Ordering::SeqCst;
use std::time::Duration;

/// No lane is named.
const NOBODY: u64 = 0;

/// Several lines in one sleep.
const SEVERAL: u64 = 2;

const NAP_MILLISECONDS: u64 = 1;

/// The place of the named lane, from 1.
#[derive(Drop)]
pub struct WriterBell {
    named: AtomicU64,
}

/// The bell as the lane at one place rings it.
#[derive(Clone, Copy, Drop)]
pub struct LaneBell<'a> {
    bell: &'a WriterBell,
    place: u64,
}

/// The writer, between two lines.
#[derive(Drop)]
pub struct Sleeper<'a> {
    bell: &'a WriterBell,
    /// The place of a lane whose line is missing, from 1.
    missing: u64,
    /// So many lines came since it slept.
    came: u64,
}

impl WriterBell {
    /// It names nobody. Contracts don't see whom it names, since any thread may change that.
    pub(crate) fn new() -> WriterBell {
        WriterBell {
            named: AtomicU64::new(NOBODY),
        }
    }

    /// For the lane at this place, from 0.
    pub(crate) fn of_lane(&self, place: usize) -> LaneBell<'_>
        ensures { (result.bell.now ≡ self.now) × (result.place ≡ min (place + 1) (2 ^ 64 - 1)) }
    {
        LaneBell {
            bell: self,
            place: (place as u64).saturating_add(1),
        }
    }
}

impl<'a> LaneBell<'a> {
    /// Wakes the writer, where it sleeps for this lane.
    pub(crate) fn ring(&self) {
        let named = &self.bell.named;
        if named.load(SeqCst) == self.place
            && named
                .compare_exchange(self.place, NOBODY, SeqCst, SeqCst)
                .is_ok()
        {
            named.wake_one();
        }
    }
}

impl<'a> Sleeper<'a> {
    /// At this bell, before the first line.
    pub(crate) fn at(bell: &'a WriterBell) -> Sleeper<'a>
        ensures { (result.bell.now ≡ bell.now) × (result.missing ≡ 0) × (result.came ≡ 0) }
    {
        Sleeper {
            bell,
            missing: NOBODY,
            came: 0,
        }
    }

    /// Whether the next line of the lane at this place, from 0, is there.
    pub(crate) fn sees(&mut self, place: usize, is_there: bool)
        ensures missing { self.new.missing ≡ (if is_there then self.old.missing else min (place + 1) (2 ^ 64 - 1)) }
        ensures came { self.new.came ≡ self.old.came }
    {
        if !is_there {
            self.missing = (place as u64).saturating_add(1);
        }
    }

    /// A line is there.
    pub(crate) fn has_one(&mut self)
        ensures { (self.new.missing ≡ self.old.missing) × (self.new.came ≡ min (self.old.came + 1) (2 ^ 64 - 1)) }
    {
        self.came = self.came.saturating_add(1);
    }

    /// Waits for the missing line. It may come back without: then the caller looks, and waits again.
    pub(crate) fn rest<R: Wait>(&mut self, rt: &R)
        ensures { self.new.missing ≡ self.old.missing }
    {
        let named = &self.bell.named;
        if self.came >= SEVERAL {
            self.came = 0;
            named.store(NOBODY, SeqCst);
            named.park_timeout(rt, NOBODY as u32, Duration::from_millis(NAP_MILLISECONDS));
        } else if named.load(SeqCst) == self.missing {
            self.came = 0;
            named.park(rt, (self.missing & 0xffff_ffff) as u32);
        } else {
            named.store(self.missing, SeqCst);
        }
    }
}
