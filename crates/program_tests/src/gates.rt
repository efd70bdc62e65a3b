// Gates that make lanes wait until others have come as far as the gate says. None makes a lane wait forever: if a
// lane has waited too long, the gate counts a miss and lets it go on.
use outside_io::Gate;
use std::sync::Wait;
use std::sync::atomic::{AtomicU32, Ordering};
use std::thread::yield_now;

/// How often a gate looks before it gives up.
const LOOKS: u32 = 100_000_000;

// Looks until the number is at least this one, and counts a miss if it doesn't come.
fn look_for(number: &AtomicU32, least: u32, missed: &AtomicU32) {
    for _ in 0..LOOKS {
        if number.load(Ordering::SeqCst) >= least {
            return;
        }
        yield_now();
    }
    missed.fetch_add(1, Ordering::SeqCst);
}

/// Makes lane 1 wait at its first line until lane 2 has valued a batch, and then lane 2 until lane 1 is before its
/// third line.
#[derive(Drop)]
pub(crate) struct Between {
    pub(crate) lines: AtomicU32,
    pub(crate) batches: AtomicU32,
    pub(crate) missed: AtomicU32,
}

impl Gate for Between {
    fn at<R: Wait>(&self, _rt: &R, lane: u8, step: u32) {
        match (lane, step) {
            (1, 0) => {
                self.lines.fetch_add(1, Ordering::SeqCst);
                look_for(&self.batches, 1, &self.missed);
            }
            (2, 1) => {
                self.batches.fetch_add(1, Ordering::SeqCst);
                look_for(&self.lines, 3, &self.missed);
            }
            _ => (),
        }
    }
}

/// Makes each lane wait before its line until all eight are there.
#[derive(Drop)]
pub(crate) struct Together {
    pub(crate) there: AtomicU32,
    pub(crate) missed: AtomicU32,
}

impl Gate for Together {
    fn at<R: Wait>(&self, _rt: &R, _lane: u8, step: u32) {
        if step == 0 {
            self.there.fetch_add(1, Ordering::SeqCst);
            look_for(&self.there, 8, &self.missed);
        }
    }
}

/// Makes lane 1 wait for a million looks before its first line.
#[derive(Drop)]
pub(crate) struct Held {
    pub(crate) looks: AtomicU32,
}

impl Gate for Held {
    fn at<R: Wait>(&self, _rt: &R, lane: u8, _step: u32) {
        if lane != 1 || self.looks.load(Ordering::SeqCst) != 0 {
            return;
        }
        for _ in 0..1_000_000 {
            self.looks.fetch_add(1, Ordering::SeqCst);
            yield_now();
        }
    }
}
