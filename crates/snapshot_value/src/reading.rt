// Something is made of the policies at a position, which is pinned, read and given up again.
ghost use Rattle.std.specs.Prelude.{◌≡◌, ◌≤◌, ◌+◌, ◌*◌, List, IfOk, length};
ghost use Rattle.snapshot_value.specs.Names.{AllByRecursion, most_commands, APolicy, policies_per_read, pin_call, IsSound, PassFacts, TakesTurn, IsOfficeHistory, HoldsPin, KeepsOtherPins, KeepsPins, pinning_turn, IsSync};
ghost use Rattle.snapshot_value.specs.Reading.{HasMadeOfBook};
ghost use Rattle.snapshot_value.specs.Valuing.{most_turns};
ghost use Rattle.snapshot_value.specs.inside.Reads.{HasMadeOfPin, HasMadeOfReads, HasReadPart, reads_needed};

use crate::reader::Reader;
use crate::valuation::ValueFault;
use office_state::POLICIES_PER_READ;
use outside_io::{Disk, Gate};
use policy_types::{At, NoMemory, PinRefusal};
use shared_office::{Batch, Office, OfficeCalls, OfficePass, Pin};
use std::alloc::Global;
use std::sync::Wait;
use std::thread::Threads;
use turn_lock::Turned;
use watcher_set::Watching;

/// What the reader makes of the policies at a position, by the plan; and the turn of the pin.
///
/// The position is pinned, and the memory is taken. Then batches of 256 policies are read, and the gate is called
/// with the lane's number and `k` after the `k`-th batch. Whatever is returned, the pin is given up.
pub fn read_pinned<D: Disk, W: Watching, G: Gate, R: Threads + Wait + Sync, T: Reader + Drop>(
    rt: &R,
    alloc: Global,
    office: &Office<D, W>,
    pass: &mut OfficePass<D, W>,
    plan: T::Plan,
    at: At,
    lane: u8,
    gate: &G,
) -> Turned<Result<T::Made, ValueFault>>
    requires ours { pass.old.turnstile ≡ office.now }
    requires plan { T.can_begin plan }
    requires left { most_turns ≤ pass.old.left }
    ensures made { HasMadeOfBook (T.gives plan) at pass.old pass.new result.turn result.answer }
    ensures facts { PassFacts IsOfficeHistory pass.new }
    ensures pins { KeepsPins pass.old pass.new }
{
    let Turned { turn, answer } = pin_as_asked(rt, office, pass, at);
    match answer {
        Ok(pin) => Turned {
            turn,
            answer: read_pin::<D, W, G, R, T>(rt, alloc, office, pass, pin, plan, lane, gate),
        },
        Err(refusal) => Turned {
            turn,
            answer: Err(ValueFault::Pin(refusal)),
        },
    }
}

// Pins the newest position, or the one that is asked for.
fn pin_as_asked<D: Disk, W: Watching, R: Wait>(
    rt: &R,
    office: &Office<D, W>,
    pass: &mut OfficePass<D, W>,
    at: At,
) -> Turned<Result<Pin, PinRefusal>>
    requires ours { pass.old.turnstile ≡ office.now }
    requires left { 1 ≤ pass.old.left }
    ensures turn { TakesTurn result.turn (pinning_turn pass.old.caller (pin_call at) result.answer) pass.old pass.new }
    ensures facts { PassFacts IsOfficeHistory pass.new }
    ensures held { IfOk result.answer (λ pin. (pin.number ≡ result.turn) × HoldsPin pass.new pin) }
    ensures pins { KeepsPins pass.old pass.new }
{
    match at {
        At::Now => office.pin(rt, pass),
        At::Position(p) => office.pin_at(rt, pass, p),
    }
}

// Reads the policies of a pin, and gives it up.
fn read_pin<D: Disk, W: Watching, G: Gate, R: Threads + Wait + Sync, T: Reader + Drop>(
    rt: &R,
    alloc: Global,
    office: &Office<D, W>,
    pass: &mut OfficePass<D, W>,
    pin: Pin,
    plan: T::Plan,
    lane: u8,
    gate: &G,
) -> Result<T::Made, ValueFault>
    requires ours { pass.old.turnstile ≡ office.now }
    requires plan { T.can_begin plan }
    requires left { most_turns ≤ pass.old.left + 1 }
    requires facts { PassFacts IsOfficeHistory pass.old }
    requires held { HoldsPin pass.old pin }
    ensures made { HasMadeOfPin (T.gives plan) pin pass.old pass.new result }
    ensures facts { PassFacts IsOfficeHistory pass.new }
    ensures pins { KeepsOtherPins pin.number pass.old pass.new }
{
    let read = read_parts::<D, W, G, R, T>(rt, alloc, office, pass, &pin, plan, lane, gate);
    office.unpin(rt, pass, pin);
    match read {
        Ok(made) => Ok(made),
        Err(lack) => Err(ValueFault::NoMemory(lack)),
    }
}

// Takes the memory that the reader needs, and then has it read the policies of a pin.
fn read_parts<D: Disk, W: Watching, G: Gate, R: Threads + Wait + Sync, T: Reader + Drop>(
    rt: &R,
    alloc: Global,
    office: &Office<D, W>,
    pass: &mut OfficePass<D, W>,
    pin: &Pin,
    plan: T::Plan,
    lane: u8,
    gate: &G,
) -> Result<T::Made, NoMemory>
    requires ours { pass.old.turnstile ≡ office.now }
    requires plan { T.can_begin plan }
    requires left { most_turns ≤ pass.old.left + 1 }
    requires facts { PassFacts IsOfficeHistory pass.old }
    requires held { HoldsPin pass.old pin.now }
    ensures made { HasMadeOfReads (T.gives plan) pin.now pass.old pass.new result }
    ensures facts { PassFacts IsOfficeHistory pass.new }
    ensures pins { KeepsPins pass.old pass.new }
{
    let mut batch = Batch::new(alloc)?;
    let mut reader = T::begin(alloc, plan, pin.policies() as usize)?;
    for k in 0..parts_of(pin.policies()) {
        read_part(rt, office, pass, pin, k, &mut batch);
        reader.part(rt, alloc, batch.policies())?;
        gate.at(rt, lane, k + 1);
    }
    make(rt, alloc, reader, pin)
}

// What the reader makes of the policies of a pin, all of which it has read.
fn make<R: Threads + Sync, T: Reader>(
    rt: &R,
    alloc: Global,
    reader: T,
    pin: &Pin,
) -> Result<T::Made, NoMemory>
    requires sync { IsSync R.row }
    requires read { (plan : T.Plan) × ((policies : List APolicy) × T.has_read plan reader policies × (length policies ≤ most_commands)) }
    ensures { (plan : T.Plan) (policies : List APolicy) → T.has_read plan reader policies
        → length policies ≤ most_commands → AllByRecursion IsSound policies
        → IfOk result (T.gives plan pin.now.position policies) }
{
    reader.made(rt, alloc, pin.position())
}

// How many reads `policies` policies need.
fn parts_of(policies: u32) -> u32
    ensures { result ≡ reads_needed policies }
{
    policies.div_ceil(POLICIES_PER_READ)
}

// Reads the k-th part of a pin's policies, counted from 0.
fn read_part<D: Disk, W: Watching, R: Wait>(
    rt: &R,
    office: &Office<D, W>,
    pass: &mut OfficePass<D, W>,
    pin: &Pin,
    k: u32,
    batch: &mut Batch,
)
    requires ours { pass.old.turnstile ≡ office.now }
    requires left { 1 ≤ pass.old.left }
    requires facts { PassFacts IsOfficeHistory pass.old }
    requires held { HoldsPin pass.old pin.now }
    requires within { policies_per_read * k ≤ pin.now.policies }
    ensures read { HasReadPart pin.now k batch.new pass.old pass.new }
    ensures facts { PassFacts IsOfficeHistory pass.new }
    ensures pins { KeepsPins pass.old pass.new }
{
    office.read(rt, pass, pin, POLICIES_PER_READ * k, batch);
}
