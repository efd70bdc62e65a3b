ghost use Rattle.std.specs.Prelude.{◌≡◌, ◌*◌, ◌≤◌, false, [], length};
ghost use Rattle.policy_types.specs.Valid.{IsValid};
ghost use Rattle.watcher_set.specs.Premiums.{paid_by, premiums_of};

use crate::heard::Heard;
use policy_types::{Attention, Command, NotReady, Report, Watcher};
use std::snapshot::Snapshot;

/// Adds up the payments of premiums, and is never done.
#[derive(Drop)]
pub struct PremiumWatcher {
    count: u32,
    sum: u64,
    heard: Heard,
    last: Snapshot<u32>,
    ghost few: { count ≤ 4000000 },
    ghost counted: { count ≡ length heard },
    ghost summed: { sum ≡ premiums_of heard },
    ghost bounded: { sum ≤ count * 40000000000 },
}

impl PremiumWatcher {
    ghost use Rattle.watcher_set.specs.Watchers.{premium_commands};

    /// It has noted nothing.
    pub fn new() -> PremiumWatcher
        ensures { premium_commands result ≡ [] }
    {
        PremiumWatcher {
            count: 0,
            sum: 0,
            heard: Heard::nothing(),
            last: Snapshot::of(&0),
        }
    }
}

impl Watcher for PremiumWatcher {
    ghost noted = { λ watcher. watcher.heard };

    ghost last = { λ watcher. watcher.last.value };

    // Adding numbers asks for no memory.
    ghost spare = { λ _. 1 };

    ghost stops = { λ _ _. false };

    ghost number = { λ _ list. premiums_of list };

    fn ready(&mut self) -> Result<(), NotReady> {
        Ok(())
    }

    fn note(&mut self, position: u32, command: &Command) -> Attention {
        self.count += 1;
        self.sum += premium_in(command);
        self.heard.hear(command);
        self.last = Snapshot::of(&position);
        Attention::More
    }

    fn report(&self) -> Report {
        Report {
            seen: self.count,
            tally: self.sum,
        }
    }
}

/// What this command pays as premiums, in cents.
fn premium_in(command: &Command) -> u64
    ensures value { result ≡ paid_by command.now }
    ensures most { IsValid command.now → result ≤ 40000000000 }
{
    match *command {
        Command::Premium { amount, .. } | Command::Reinstate { amount, .. } => amount,
        _ => 0,
    }
}
