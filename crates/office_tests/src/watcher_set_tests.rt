// Reports of sets of watchers, expected by hand.
ghost use Rattle.std.specs.Prelude.{◌≡◌, ℕ, [], length, IsTrue};
ghost use Rattle.std.specs.List.{AllByRecursion};

use crate::policies::{NEW_YEAR, issue};
use policy_types::{Attention, Command, NotReady, Report, Watcher};
use std::process::Abort;
use std::sync::Arc;
use std::test::Fail;
use test_rows::assert_rows;
use watcher_set::{
    CountWatcher, MOST_WATCHERS, NoWatchers, PremiumWatcher, Reports, Watchers, Watching,
};

// A watcher that counts, and owns a share of a token while it isn't dropped.
#[derive(Drop)]
struct Guest {
    count: CountWatcher,
    _token: Arc<u8>,
}

impl Watcher for Guest {
    ghost use Rattle.std.specs.Prelude.{◌==◌, length};

    ghost noted = { λ guest. guest.count.heard };

    ghost last = { λ guest. guest.count.last.value };

    ghost spare = { λ _. 1 };

    ghost stops = { λ guest list. length list == guest.count.limit };

    ghost number = { λ _ list. length list };

    fn ready(&mut self) -> Result<(), NotReady> {
        self.count.ready()
    }

    fn note(&mut self, position: u32, command: &Command) -> Attention {
        self.count.note(position, command)
    }

    fn report(&self) -> Report {
        self.count.report()
    }
}

fn seen_by(watcher: &Box<dyn Watcher + Send>) -> u32
    ensures { result ≡ length ((Watcher-box watcher.now).noted watcher.now.value) }
{
    watcher.report().seen
}

// Whether each has noted nothing.
fn are_fresh(boxes: &[Box<dyn Watcher + Send>]) -> bool
    ensures { IsTrue result → AllByRecursion (λ b. (Watcher-box b).noted b.value ≡ []) boxes.now }
{
    for watcher in boxes {
        if seen_by(watcher) != 0 {
            return false;
        }
    }
    true
}

// Notifies the set of the commands. After each, the token has as many owners as are expected.
fn told<W: Watching + Send>(
    rt: &impl Abort,
    mut watchers: W,
    commands: &[Command],
    token: &Arc<u8>,
    owners: &[usize],
) -> Result<Reports, Fail>
    requires { (before : ℕ) → W.told watchers before [] }
{
    assert!(rt; commands.len() < 100);
    for (place, command) in commands.iter().enumerate() {
        assert!(rt; command.is_valid());
        assert!(rt; watchers.ready().is_ok());
        watchers.note(place as u32 + 1, command);
        if let Some(count) = owners.get(place) {
            assert_eq!(rt; Arc::strong_count(token), *count);
        }
    }
    Ok(watchers.finish())
}

// Five issues with a watcher of the first three, not in a box.
#[test]
fn done_and_dropped_at_the_third(rt: HostRuntime) -> Result<(), Fail> {
    let alloc = rt.alloc();
    let token = Arc::new(alloc, 0u8)?;
    let guest = Guest {
        count: CountWatcher::new(3),
        _token: token.clone()?,
    };
    let mut guests = Vec::new(alloc);
    guests.push(guest)?;
    let commands = [
        issue(1, NEW_YEAR),
        issue(2, NEW_YEAR),
        issue(3, NEW_YEAR),
        issue(4, NEW_YEAR),
        issue(5, NEW_YEAR),
    ];
    let reports = told(
        &rt,
        Watchers::new(guests),
        &commands,
        &token,
        &[2, 2, 1, 1, 1],
    )?;
    assert_eq!(rt;
        reports.as_slice(),
        [Report { seen: 3, tally: 3 }].as_slice()
    );
    Ok(())
}

// The two watchers of the program: one issue, and then payments and a settlement.
#[test]
fn counts_and_premiums(rt: HostRuntime) -> Result<(), Fail> {
    let alloc = rt.alloc();
    let token = Arc::new(alloc, 0u8)?;
    let id = 1;
    let day = 18262;
    let commands = [
        issue(id, NEW_YEAR),
        Command::Premium {
            id,
            day,
            amount: 40_000,
        },
        Command::Lapse { id, day },
        Command::Reinstate {
            id,
            day,
            amount: 80_000,
        },
        Command::Claim { id, day },
        Command::Settle { id, day, amount: 7 },
    ];
    assert_rows!(rt; (count, premiums) in [(0, 0), (1, 0), (2, 40_000), (3, 40_000), (4, 120_000), (6, 120_000)] => {
        let mut boxes: Vec<Box<dyn Watcher + Send>> = Vec::new(alloc);
        boxes.push(Box::new(alloc, CountWatcher::new(4_000_000))?)?;
        boxes.push(Box::new(alloc, PremiumWatcher::new())?)?;
        let reports = told(&rt, Watchers::new(boxes), &commands[..count], &token, &[])?;
        let seen = count as u32;
        let counted = Report { seen, tally: count as u64 };
        let paid = Report { seen, tally: premiums };
        reports.as_slice() == [counted, paid].as_slice()
    }; "{count} commands");
    Ok(())
}

// No watchers, and as many as there may be, with the limits 1 to 16.
#[test]
fn none_and_sixteen(rt: HostRuntime) -> Result<(), Fail> {
    let alloc = rt.alloc();
    let token = Arc::new(alloc, 0u8)?;
    let commands = [issue(1, NEW_YEAR), issue(2, NEW_YEAR), issue(3, NEW_YEAR)];
    let none = told(&rt, NoWatchers, &commands, &token, &[])?;
    assert!(rt; none.as_slice().is_empty());
    let nobody: Vec<CountWatcher> = Vec::new(alloc);
    let none = told(&rt, Watchers::new(nobody), &commands, &token, &[])?;
    assert!(rt; none.as_slice().is_empty());
    let mut boxes: Vec<Box<dyn Watcher + Send>> = Vec::new(alloc);
    for limit in 1..17 {
        boxes.push(Box::new(alloc, CountWatcher::new(limit))?)?;
    }
    assert!(rt; boxes.len() == MOST_WATCHERS && are_fresh(&boxes));
    let reports = told(&rt, Watchers::new(boxes), &commands, &token, &[])?;
    assert_eq!(rt; reports.as_slice().len(), 16);
    assert_rows!(rt; (place, report) in reports.as_slice().iter().enumerate() => {
        let seen = if place < 3 { place as u32 + 1 } else { 3 };
        *report == Report { seen, tally: seen as u64 }
    }; "auditor {place}");
    Ok(())
}
