// What the watchers of a shared office report at its end.
ghost use Rattle.std.specs.Prelude.{◌≡◌, ℕ, ◌≤◌, []};

use crate::policies::NEW_YEAR;
use crate::shared_callers::{issues, number};
use memory_disk::MemoryDisk;
use outside_io::Disk;
use policy_types::{Command, Report, Watcher};
use shared_office::{Office, OfficeCalls, OfficePass, StartFault, close};
use std::alloc::{AllocError, Global};
use std::sync::Wait;
use std::thread::{Threads, join};
use watcher_set::{CountWatcher, NoWatchers, PremiumWatcher, Reports, Watchers, Watching};

// One caller issues `count` policies, and then pays the first premium of each.
fn issues_and_pays<D: Disk, W: Watching, R: Wait>(
    rt: &R,
    office: &Office<D, W>,
    pass: &mut OfficePass<D, W>,
    caller: u16,
    policies: u16,
)
    requires { pass.old.turnstile ≡ office.now }
    ensures { (pass.new.turnstile ≡ pass.old.turnstile) × (pass.new.shares ≡ pass.old.shares) }
{
    issues(rt, office, pass, caller, policies);
    for n in 1..=policies {
        let command = Command::Premium {
            id: number(caller, n),
            day: NEW_YEAR,
            amount: 40_000,
        };
        if pass.left() == 0 || !command.is_valid() {
            return;
        }
        office.post(rt, pass, &command);
    }
}

// Callers 1 and 2 do so, each in a thread of its own.
fn two_pay<D: Disk + Send, W: Watching + Send, R: Threads + Wait + Sync>(
    rt: &R,
    office: &Office<D, W>,
    mut pass: OfficePass<D, W>,
    policies: u16,
) -> OfficePass<D, W>
    requires { (pass.turnstile ≡ office.now) × (3 ≤ pass.left) × (2 ≤ pass.shares) }
    ensures { (result.turnstile ≡ pass.turnstile) × (result.shares ≡ pass.shares) }
{
    let mut other = office.enter(&mut pass);
    let (mut pass, other) = join(
        rt,
        move || -> OfficePass<D, W>
            requires { pass.turnstile ≡ office.now }
            ensures { (result.turnstile ≡ pass.turnstile) × (result.shares ≡ pass.shares) }
        {
            issues_and_pays(rt, office, &mut pass, 1, policies);
            pass
        },
        move || -> OfficePass<D, W>
            requires { other.turnstile ≡ office.now }
            ensures { (result.turnstile ≡ other.turnstile) × (result.shares ≡ other.shares) }
        {
            issues_and_pays(rt, office, &mut other, 2, policies);
            other
        },
    );
    office.leave(other, &mut pass);
    pass
}

// An office of the disk at which two callers post so much, and the reports of its end. With no policies, nobody
// posts.
fn reported<D: Disk + Send, W: Watching + Send, R: Threads + Wait + Sync>(
    rt: &R,
    alloc: Global,
    disk: D,
    watchers: W,
    policies: u16,
) -> Result<(D, Reports), StartFault<D>>
    requires { (before : ℕ) → W.told watchers before [] }
{
    let (office, pass) = Office::start(alloc, disk, watchers)?;
    let pass = two_pay(rt, &office, pass, policies);
    let (disk, _, reports, _) = close(office, pass);
    Ok((disk, reports))
}

#[test]
fn watchers_of_two_callers(rt: HostRuntime) -> Result<(), AllocError> {
    let alloc = rt.alloc();
    let mut boxes: Vec<Box<dyn Watcher + Send>> = Vec::new(alloc);
    boxes.push(Box::new(alloc, CountWatcher::new(3))?)?;
    boxes.push(Box::new(alloc, PremiumWatcher::new())?)?;
    let empty = MemoryDisk::new(alloc, Vec::new(alloc), Vec::new(alloc));
    let Ok((disk, reports)) = reported(&rt, alloc, empty, Watchers::new(boxes), 50) else {
        panic!(rt; "no office");
    };
    assert_eq!(rt; disk.bytes().len(), 13_018);
    let expected = [
        Report { seen: 3, tally: 3 },
        Report {
            seen: 200,
            tally: 4_000_000,
        },
    ];
    assert_eq!(rt; reports.as_slice(), expected.as_slice());
    Ok(())
}

// The journal that callers left is opened once more, and nobody posts.
#[test]
fn closed_at_once(rt: HostRuntime) -> Result<(), AllocError> {
    let alloc = rt.alloc();
    let empty = MemoryDisk::new(alloc, Vec::new(alloc), Vec::new(alloc));
    let Ok((disk, _)) = reported(&rt, alloc, empty, NoWatchers, 2) else {
        panic!(rt; "no office");
    };
    let mut before = Vec::new(alloc);
    before.extend_from_slice(disk.bytes())?;
    assert_eq!(rt; before.len(), 538);
    let mut boxes: Vec<Box<dyn Watcher + Send>> = Vec::new(alloc);
    boxes.push(Box::new(alloc, CountWatcher::new(3))?)?;
    let Ok((disk, reports)) = reported(&rt, alloc, disk, Watchers::new(boxes), 0) else {
        panic!(rt; "no office");
    };
    assert_eq!(rt; disk.bytes(), before.as_slice());
    assert_eq!(rt;
        reports.as_slice(),
        [Report { seen: 0, tally: 0 }].as_slice()
    );
    Ok(())
}
