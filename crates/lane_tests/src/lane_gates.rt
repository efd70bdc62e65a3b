// Gates that make lanes wait until others have come as far as the gate says. None makes a lane wait forever: if a
// lane has waited too long, the gate counts a miss and lets it go on.
use outside_io::Gate;
use std::sync::Wait;
use std::sync::atomic::{AtomicU32, Ordering};
use std::thread::yield_now;

/// How often a gate looks before it gives up.
const LOOKS: u32 = 100_000_000;

// Looks until the number is at least this one, and counts a miss if it doesn't come.
fn look_for(number: &AtomicU32, least: u32, missed: &AtomicU32) {
    for _ in 0..LOOKS {
        if number.load(Ordering::SeqCst) >= least {
            return;
        }
        yield_now();
    }
    missed.fetch_add(1, Ordering::SeqCst);
}

/// Lets lane 1 answer a line after each of so many batches of lane 2's valuation, and lane 2 value a batch after each of
/// these lines.
#[derive(Drop)]
pub struct InTurn {
    most: u32,
    lines: AtomicU32,
    batches: AtomicU32,
    missed: AtomicU32,
}

impl InTurn {
    pub fn new(most: u32) -> InTurn {
        InTurn {
            most,
            lines: AtomicU32::new(0),
            batches: AtomicU32::new(0),
            missed: AtomicU32::new(0),
        }
    }

    pub fn missed(&self) -> u32 {
        self.missed.load(Ordering::SeqCst)
    }
}

impl Gate for InTurn {
    fn at<R: Wait>(&self, _rt: &R, lane: u8, step: u32) {
        match (lane, step) {
            (1, _) => {
                let before = self.lines.fetch_add(1, Ordering::SeqCst);
                look_for(
                    &self.batches,
                    before.saturating_add(1).min(self.most),
                    &self.missed,
                );
            }
            (2, 1..) => {
                self.batches.fetch_add(1, Ordering::SeqCst);
                look_for(&self.lines, step.saturating_add(1), &self.missed);
            }
            _ => (),
        }
    }
}

/// Holds seven lanes before their first line until lane 0 has read a part of a book, and then lane 0 until each of the
/// seven is before its third line.
#[derive(Drop)]
pub struct Seven {
    parts: AtomicU32,
    lines: AtomicU32,
    missed: AtomicU32,
}

impl Seven {
    pub fn new() -> Seven {
        Seven {
            parts: AtomicU32::new(0),
            lines: AtomicU32::new(0),
            missed: AtomicU32::new(0),
        }
    }

    pub fn missed(&self) -> u32 {
        self.missed.load(Ordering::SeqCst)
    }
}

impl Gate for Seven {
    fn at<R: Wait>(&self, _rt: &R, lane: u8, step: u32) {
        match (lane, step) {
            (0, 1) => {
                self.parts.fetch_add(1, Ordering::SeqCst);
                look_for(&self.lines, 21, &self.missed);
            }
            (1.., 0) => {
                self.lines.fetch_add(1, Ordering::SeqCst);
                look_for(&self.parts, 1, &self.missed);
            }
            _ => (),
        }
    }
}
