// Turns of several threads on one counter: each returns the number of all turns before it, every caller that waits
// gets its turn, and all shares come back.
ghost use Rattle.std.specs.Prelude.{◌≡◌, IfOk};
ghost use Rattle.turn_lock.specs.Passes.{all_shares};
ghost use denote.Param.Send.{IsSync};

use std::alloc::Global;
use std::sync::Wait;
use std::sync::atomic::{AtomicBool, Ordering};
use std::test::Fail;
use std::thread::{Threads, join, yield_now};
use test_rows::assert_rows;
use turn_lock::{Pass, Stands, Turn, Turned, Turnstile};

// What the counter began with. No value of it is made.
struct Beginning {
    count: u64,
}

// The count began with `first`, and each turn adds one.
#[derive(Drop)]
struct Counter {
    first: u64,
    count: u64,
}

impl Stands for Counter {
    ghost use Rattle.std.specs.Prelude.{◌≡◌, ◌+◌, ◌^◌, ◌<◌, length};

    type Opening = Beginning;

    ghost opening = { λ c. record { count = c.first } };

    ghost legal = { λ _ _. Unit {0} };

    ghost stands = { λ c history. (c.first < 2 ^ 62) × (c.count ≡ c.first + length history) };

    ghost is_legal = { λ _ _ _. tt };
}

// A turn that yields the processor so often while it has the counter, then adds one, and returns the count before.
#[derive(Clone, Copy)]
struct Tick {
    yields: u32,
}

impl Turn<Counter> for Tick {
    ghost use Rattle.std.specs.Prelude.{◌≡◌, refl};
    ghost use Rattle.policy_types.specs.declared.entry.Call.TheVariants.{Trim};
    ghost use Rattle.policy_types.specs.declared.entry.Reply.TheVariants.{Faulted};

    type Answer = u64;

    ghost needs = { λ _ _ _ _. Unit {0} };

    ghost entry = { λ _ caller answer. record { caller = caller; call = Trim; reply = Faulted answer } };

    ghost tells = { λ _ _ _ _. Unit {0} };

    fn run(self, value: &mut Counter, caller: u64) -> u64 {
        for _ in 0..self.yields {
            yield_now();
        }
        let count = value.count;
        value.count += 1;
        count
    }

    ghost by_caller = { λ _ _ _. refl };
}

// The turns of one caller. Returns how many weren't after its last, or returned another count than the number of
// earlier turns.
fn lane<R: Wait>(
    rt: &R,
    gate: &Turnstile<Counter>,
    pass: &mut Pass<Counter>,
    turns: u64,
    tick: Tick,
) -> u64
    requires { pass.old.turnstile ≡ gate.now }
    ensures { (pass.new.turnstile ≡ pass.old.turnstile) × (pass.new.shares ≡ pass.old.shares) }
{
    let mut wrong = 0u64;
    let mut next = 0u64;
    for _ in 0..turns {
        if pass.left() == 0 {
            return u64::MAX;
        }
        let Turned { turn, answer } = gate.turn(rt, pass, tick);
        if answer != turn || turn < next {
            wrong = wrong.saturating_add(1);
        }
        next = turn.saturating_add(1);
    }
    wrong
}

// The same for as many callers, each in a thread of its own.
fn lanes<R: Threads + Wait + Sync>(
    rt: &R,
    gate: &Turnstile<Counter>,
    mut pass: Pass<Counter>,
    callers: u64,
    turns: u64,
    tick: Tick,
) -> (Pass<Counter>, u64)
    requires { pass.turnstile ≡ gate.now }
    ensures { (result.0.turnstile ≡ pass.turnstile) × (result.0.shares ≡ pass.shares) }
{
    if callers <= 1 || pass.left() < 3 || pass.shares() < 2 {
        let wrong = lane(rt, gate, &mut pass, turns, tick);
        return (pass, wrong);
    }
    let other = gate.enter(&mut pass);
    let half = callers / 2;
    let rest = callers - half;
    let (mut one, two) = join(
        rt,
        move || -> (Pass<Counter>, u64)
            requires { IsSync R.row × (pass.turnstile ≡ gate.now) }
            ensures { (result.0.turnstile ≡ pass.turnstile) × (result.0.shares ≡ pass.shares) }
        { lanes(rt, gate, pass, half, turns, tick) },
        move || -> (Pass<Counter>, u64)
            requires { IsSync R.row × (other.turnstile ≡ gate.now) }
            ensures { (result.0.turnstile ≡ other.turnstile) × (result.0.shares ≡ other.shares) }
        { lanes(rt, gate, other, rest, turns, tick) },
    );
    gate.leave(two.0, &mut one.0);
    (one.0, one.1.saturating_add(two.1))
}

// A new turnstile, the turns of all callers, and the count at the end with the number of wrong turns.
fn count<R: Threads + Wait + Sync>(
    rt: &R,
    alloc: Global,
    callers: u64,
    turns: u64,
    yields: u32,
) -> Option<(u64, u64)> {
    let Ok((gate, pass)) = Turnstile::new(alloc, Counter { first: 0, count: 0 }) else {
        return None;
    };
    let (pass, wrong) = lanes(rt, &gate, pass, callers, turns, Tick { yields });
    let counter = gate.close(pass);
    Some((counter.count, wrong))
}

#[test]
fn every_turn_sees_all_before_it(rt: HostRuntime) -> Result<(), Fail> {
    let cases = [
        ("one caller", 1, 1000, 0),
        ("two callers", 2, 100, 0),
        ("eight callers", 8, 1000, 0),
        ("more callers than processors", 32, 100, 0),
        ("callers that wait while one works", 6, 5, 5000),
    ];
    assert_rows!(rt; (name, callers, turns, yields) in cases =>
        count(&rt, rt.alloc(), callers, turns, yields), Some((callers * turns, 0)); "{name}");
    Ok(())
}

// Waits until the others are done, and then takes one turn, whose place is returned.
fn late<R: Wait>(
    rt: &R,
    gate: &Turnstile<Counter>,
    pass: &mut Pass<Counter>,
    done: &AtomicBool,
) -> Option<u64>
    requires { pass.old.turnstile ≡ gate.now }
    ensures { (pass.new.turnstile ≡ pass.old.turnstile) × (pass.new.shares ≡ pass.old.shares) }
{
    for _ in rt.forever() {
        if done.load(Ordering::SeqCst) {
            break;
        }
        yield_now();
    }
    if pass.left() == 0 {
        return None;
    }
    Some(gate.turn(rt, pass, Tick { yields: 0 }).turn)
}

// One caller has to wait until seven others have taken all their turns. Returns the place of its turn.
fn put_off<R: Threads + Wait + Sync>(rt: &R, alloc: Global, turns: u64) -> Option<u64> {
    let Ok((gate, mut pass)) = Turnstile::new(alloc, Counter { first: 0, count: 0 }) else {
        return None;
    };
    let mut other = gate.enter(&mut pass);
    let done = AtomicBool::new(false);
    let gate_ref = &gate;
    let done_ref = &done;
    let ((mut pass, _), (other, place)) = join(
        rt,
        move || -> (Pass<Counter>, u64)
            requires { IsSync R.row × (pass.turnstile ≡ gate_ref.now) }
            ensures { (result.0.turnstile ≡ pass.turnstile) × (result.0.shares ≡ pass.shares) }
        {
            let ended = lanes(rt, gate_ref, pass, 7, turns, Tick { yields: 0 });
            done_ref.store(true, Ordering::SeqCst);
            ended
        },
        move || -> (Pass<Counter>, Option<u64>)
            requires { other.turnstile ≡ gate_ref.now }
            ensures { (result.0.turnstile ≡ other.turnstile) × (result.0.shares ≡ other.shares) }
        {
            let place = late(rt, gate_ref, &mut other, done_ref);
            (other, place)
        },
    );
    gate.leave(other, &mut pass);
    gate.close(pass);
    place
}

#[test]
fn others_go_on_while_one_is_put_off(rt: HostRuntime) -> Result<(), Fail> {
    assert_eq!(rt; put_off(&rt, rt.alloc(), 300), Some(2100));
    Ok(())
}
