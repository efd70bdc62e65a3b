ghost use Rattle.std.specs.Prelude.{◌≡◌, ◌-◌, ◌≤◌, false, [], length, vec_len, vec_capacity, OnOk, OnErr, IsErr};

use policy_types::{Attention, Command, NotReady, Report, Watcher};
use std::alloc::Global;
use std::snapshot::Snapshot;

/// Counts the commands, and is never done. It takes memory for one command at a time, and one of the calls that need
/// memory is refused it.
#[derive(Drop)]
pub struct TightWatcher {
    /// How many calls that need memory are left, up to and with the one that is refused it. It is 0 once that one is
    /// past, or if there is none.
    calls_left: u32,
    noted: Vec<Command>,
    last: Snapshot<u32>,
    ghost few: { vec_len noted ≤ 4000000 },
}

impl TightWatcher {
    ghost use Rattle.watcher_set.specs.Watchers.{tight_commands, calls_left_of};

    /// It has noted nothing. Among the calls of `ready` that need memory, the one with this number, counted from 1,
    /// is refused it. No call has the number 0.
    pub fn new(alloc: Global, refuse_at: u32) -> TightWatcher
        ensures noted { tight_commands result ≡ [] }
        ensures calls { calls_left_of result ≡ refuse_at }
    {
        TightWatcher {
            calls_left: refuse_at,
            noted: Vec::new(alloc),
            last: Snapshot::of(&0),
        }
    }
}

impl Watcher for TightWatcher {
    ghost noted = { λ watcher. watcher.noted.items };

    ghost last = { λ watcher. watcher.last.value };

    ghost spare = { λ watcher. vec_capacity watcher.noted - vec_len watcher.noted };

    ghost stops = { λ _ _. false };

    ghost number = { λ _ list. length list };

    fn ready(&mut self) -> Result<(), NotReady>
        ensures noted { self.new.noted.items ≡ self.old.noted.items }
        ensures last { self.new.last.value ≡ self.old.last.value }
        ensures ok { OnOk result (1 ≤ vec_capacity self.new.noted - vec_len self.new.noted) }
        ensures err { OnErr result (vec_capacity self.new.noted - vec_len self.new.noted
            ≡ vec_capacity self.old.noted - vec_len self.old.noted) }
        ensures full { OnErr result (vec_capacity self.old.noted - vec_len self.old.noted ≡ 0) }
        // The call that is refused memory.
        ensures refused { vec_capacity self.old.noted - vec_len self.old.noted ≡ 0
            → self.old.calls_left ≡ 1 → IsErr result }
        ensures counted { vec_capacity self.old.noted - vec_len self.old.noted ≡ 0
            → self.new.calls_left ≡ self.old.calls_left - 1 }
    {
        if self.noted.len() < self.noted.capacity() {
            return Ok(());
        }
        let calls_left = self.calls_left;
        self.calls_left = calls_left.saturating_sub(1);
        if calls_left == 1 {
            return Err(NotReady);
        }
        match self.noted.reserve_exact(1) {
            Ok(()) => Ok(()),
            Err(_) => Err(NotReady),
        }
    }

    fn note(&mut self, position: u32, command: &Command) -> Attention {
        self.noted.push_reserved(*command);
        self.last = Snapshot::of(&position);
        Attention::More
    }

    fn report(&self) -> Report {
        let count = self.noted.len();
        Report {
            seen: count as u32,
            tally: count as u64,
        }
    }
}
