// Callers of a shared office, one or several at once, each of which issues policies of its own.
ghost use Rattle.std.specs.Prelude.{◌≡◌};
ghost use denote.Param.Send.{IsSync};

use crate::policies::{NEW_YEAR, issue};
use outside_io::Disk;
use shared_office::{Office, OfficeCalls, OfficePass};
use std::sync::Wait;
use std::thread::{Threads, join};
use watcher_set::Watching;

// The number of a caller's n-th policy, counted from 1.
pub(crate) fn number(caller: u16, n: u16) -> u32 {
    1000 * u32::from(caller) + u32::from(n)
}

// One caller issues `count` policies.
pub(crate) fn issues<D: Disk, W: Watching, R: Wait>(
    rt: &R,
    office: &Office<D, W>,
    pass: &mut OfficePass<D, W>,
    caller: u16,
    policies: u16,
)
    requires { pass.old.turnstile ≡ office.now }
    ensures { (pass.new.turnstile ≡ pass.old.turnstile) × (pass.new.shares ≡ pass.old.shares) }
{
    for n in 1..=policies {
        let command = issue(number(caller, n), NEW_YEAR);
        if pass.left() == 0 || !command.is_valid() {
            return;
        }
        office.post(rt, pass, &command);
    }
}

// The same for as many callers, from `first` on, each in a thread of its own.
pub(crate) fn callers_issue<D: Disk + Send, W: Watching + Send, R: Threads + Wait + Sync>(
    rt: &R,
    office: &Office<D, W>,
    mut pass: OfficePass<D, W>,
    first: u16,
    callers: u16,
    policies: u16,
) -> OfficePass<D, W>
    requires { pass.turnstile ≡ office.now }
    ensures { (result.turnstile ≡ pass.turnstile) × (result.shares ≡ pass.shares) }
{
    if callers <= 1 || pass.left() < 3 || pass.shares() < 2 {
        issues(rt, office, &mut pass, first, policies);
        return pass;
    }
    let other = office.enter(&mut pass);
    let half = callers / 2;
    let rest = callers - half;
    let middle = first.saturating_add(half);
    let (mut pass, other) = join(
        rt,
        move || -> OfficePass<D, W>
            requires { IsSync R.row × (pass.turnstile ≡ office.now) }
            ensures { (result.turnstile ≡ pass.turnstile) × (result.shares ≡ pass.shares) }
        { callers_issue(rt, office, pass, first, half, policies) },
        move || -> OfficePass<D, W>
            requires { IsSync R.row × (other.turnstile ≡ office.now) }
            ensures { (result.turnstile ≡ other.turnstile) × (result.shares ≡ other.shares) }
        { callers_issue(rt, office, other, middle, rest, policies) },
    );
    office.leave(other, &mut pass);
    pass
}
