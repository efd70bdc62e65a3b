ghost use Rattle.std.specs.Prelude.{◌≡◌, ◌≤◌, ◌<◌, ◌^◌, ◌*◌, ◌+◌, ℕ, Bool};
ghost use Rattle.policy_types.specs.declared.entry.Entry.{Entry};
ghost use Rattle.measure.specs.Turns.{AllTake, HasTurnsLeft, Takes};
ghost use denote.Param.Send.{IsSync};

use std::sync::Wait;
use std::thread::{Threads, join};
use turn_lock::{Pass, Stands, Turnstile};

/// As many callers as there may be at once.
pub const MOST_CALLERS: u32 = 32;

/// What each of several callers does with its pass.
pub trait Lane<T: Stands, R: Wait> {
    // How many turns each takes.
    ghost turns: { Self → ℕ };

    // Whether a turn with this entry is counted.
    ghost counts: { Entry → Bool };

    /// Takes the turns of the caller of this place among all, and gives how many of them are counted.
    fn run(&self, rt: &R, gate: &Turnstile<T>, pass: &mut Pass<T>, place: u32) -> u64
        requires ours { pass.old.turnstile ≡ gate.now }
        requires left { turns self.now ≤ pass.old.left }
        requires place { place < 32 }
        ensures { Takes counts (turns self.now) result pass.old pass.new };
}

/// The turns of so many callers, each in a thread of its own with a pass of its own. Gives the first pass back, into
/// which all others were taken, and how many turns were counted.
#[tactic(auto, using(crate::proofs::Taking::room_kept, crate::proofs::Taking::room_given))]
pub fn lanes<T: Stands + Send, R: Threads + Wait + Sync, L: Lane<T, R> + Sync>(
    rt: &R,
    gate: &Turnstile<T>,
    mut pass: Pass<T>,
    lane: &L,
    first: u32,
    callers: u32,
) -> (Pass<T>, u64)
    requires ours { pass.turnstile ≡ gate.now }
    requires callers { (1 ≤ callers) × (first + callers ≤ 32) }
    requires room { HasTurnsLeft (L.turns lane.now) callers pass }
    ensures take { AllTake L.counts (callers * L.turns lane.now) result.1 pass result.0 }
    ensures few { result.1 ≤ callers * 2 ^ 32 }
{
    if callers == 1 {
        let counted = lane.run(rt, gate, &mut pass, first);
        return (pass, counted);
    }
    let other = gate.enter(&mut pass);
    let half = callers / 2;
    let rest = callers - half;
    let (mut one, two) = join(
        rt,
        move || -> (Pass<T>, u64)
            requires sync { IsSync R.row }
            requires ours { pass.turnstile ≡ gate.now }
            requires callers { (1 ≤ half) × (first + half ≤ 32) }
            requires room { HasTurnsLeft (L.turns lane.now) half pass }
            ensures take { AllTake L.counts (half * L.turns lane.entry.now) result.1 pass result.0 }
            ensures few { result.1 ≤ half * 2 ^ 32 }
        { lanes(rt, gate, pass, lane, first, half) },
        move || -> (Pass<T>, u64)
            requires sync { IsSync R.row }
            requires ours { other.turnstile ≡ gate.now }
            requires callers { (1 ≤ rest) × (first + half + rest ≤ 32) }
            requires room { HasTurnsLeft (L.turns lane.now) rest other }
            ensures take { AllTake L.counts (rest * L.turns lane.entry.now) result.1 other result.0 }
            ensures few { result.1 ≤ rest * 2 ^ 32 }
        { lanes(rt, gate, other, lane, first + half, rest) },
    );
    gate.leave(two.0, &mut one.0);
    (one.0, one.1 + two.1)
}
