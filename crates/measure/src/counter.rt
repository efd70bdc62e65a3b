// A counter under the lock, and callers that count.
ghost use Rattle.std.specs.Prelude.{◌≡◌, ◌*◌, ◌≤◌, ◌<◌, ◌^◌, IfOk};

use crate::lane::{Lane, lanes};
use policy_types::NoMemory;
use std::alloc::Global;
use std::sync::{Barrier, Wait};
use std::thread::Threads;
use turn_lock::{NoRoom, Pass, Stands, Turn, Turnstile};

/// How many turns were taken.
#[derive(Drop)]
pub struct Counter {
    pub count: u64,
}

impl Stands for Counter {
    ghost use Rattle.std.specs.Prelude.{◌≡◌, length};

    type Opening = ();

    ghost opening = { λ _. tt };

    ghost legal = { λ _ _. Unit {0} };

    ghost stands = { λ counter history. counter.count ≡ length history };

    ghost is_legal = { λ _ _ _. tt };
}

/// A turn that adds one.
#[derive(Clone, Copy)]
pub struct Tick;

impl Turn<Counter> for Tick {
    ghost use Rattle.std.specs.Prelude.{refl};
    ghost use Rattle.policy_types.specs.declared.entry.Call.TheVariants.{Trim};
    ghost use Rattle.policy_types.specs.declared.entry.Reply.TheVariants.{Blank};

    type Answer = ();

    ghost needs = { λ _ _ _ _. Unit {0} };

    ghost entry = { λ _ caller _. record { caller = caller; call = Trim; reply = Blank } };

    ghost tells = { λ _ _ _ _. Unit {0} };

    fn run(self, value: &mut Counter, caller: u64) {
        value.count += 1;
    }

    ghost by_caller = { λ _ _ _. refl };
}

/// Callers of which each adds one, turn by turn, once all have come.
#[derive(Clone, Copy)]
pub struct Ticks<'a> {
    pub turns: u32,
    /// It waits for as many as there are callers.
    pub start: &'a Barrier,
}

impl<R: Wait> Lane<Counter, R> for Ticks<'_> {
    ghost use Rattle.std.specs.Prelude.{true};

    ghost turns = { λ ticks. ticks.turns };

    ghost counts = { λ _. true };

    fn run(&self, rt: &R, gate: &Turnstile<Counter>, pass: &mut Pass<Counter>, place: u32) -> u64 {
        let turns = self.turns;
        self.start.wait(rt);
        let mut done = 0;
        while done < turns {
            gate.turn(rt, pass, Tick);
            done += 1;
        }
        u64::from(done)
    }
}

/// The count at the end of the turns of so many callers on a new counter.
pub fn count_turns<R: Threads + Wait + Sync, L: Lane<Counter, R> + Sync>(
    rt: &R,
    alloc: Global,
    lane: &L,
    callers: u32,
) -> Result<u64, NoMemory>
    requires callers { (1 ≤ callers) × (callers ≤ 32) }
    requires turns { L.turns lane.now < 2 ^ 32 }
    ensures { IfOk result (λ count. count ≡ callers * L.turns lane.now) }
{
    let (gate, pass) = match Turnstile::new(alloc, Counter { count: 0 }) {
        Ok(made) => made,
        Err(NoRoom { lack, .. }) => return Err(lack),
    };
    let (pass, _) = lanes(rt, &gate, pass, lane, 0, callers);
    Ok(gate.close(pass).count)
}
