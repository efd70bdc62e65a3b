ghost use Rattle.std.specs.Prelude.{◌≡◌, ◌==◌, ◌≤◌, [], length};

use crate::heard::Heard;
use policy_types::{Attention, Command, NotReady, Report, Watcher};
use std::snapshot::Snapshot;

/// Counts the commands, and is done when its count reaches the limit.
#[derive(Drop)]
pub struct CountWatcher {
    limit: u32,
    count: u32,
    heard: Heard,
    last: Snapshot<u32>,
    ghost few: { count ≤ 4000000 },
    ghost counted: { count ≡ length heard },
}

impl CountWatcher {
    ghost use Rattle.watcher_set.specs.Watchers.{counted, limit_of};

    /// It has noted nothing. A limit of 0 is never reached.
    pub fn new(limit: u32) -> CountWatcher
        ensures noted { counted result ≡ [] }
        ensures limit { limit_of result ≡ limit }
    {
        CountWatcher {
            limit,
            count: 0,
            heard: Heard::nothing(),
            last: Snapshot::of(&0),
        }
    }
}

impl Watcher for CountWatcher {
    ghost noted = { λ watcher. watcher.heard };

    ghost last = { λ watcher. watcher.last.value };

    // Counting asks for no memory.
    ghost spare = { λ _. 1 };

    ghost stops = { λ watcher list. length list == watcher.limit };

    ghost number = { λ _ list. length list };

    fn ready(&mut self) -> Result<(), NotReady> {
        Ok(())
    }

    fn note(&mut self, position: u32, command: &Command) -> Attention {
        self.count += 1;
        self.heard.hear(command);
        self.last = Snapshot::of(&position);
        if self.count == self.limit {
            Attention::Done
        } else {
            Attention::More
        }
    }

    fn report(&self) -> Report {
        Report {
            seen: self.count,
            tally: self.count as u64,
        }
    }
}
