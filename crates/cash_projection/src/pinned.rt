// The projection of the policies at the newest position of an office.
ghost use Rattle.std.specs.Prelude.{◌≡◌, ◌≤◌};
ghost use Rattle.policy_types.specs.declared.entry.At.TheVariants.{Now};
ghost use Rattle.cash_projection.specs.Names.{PassFacts, IsOfficeHistory};
ghost use Rattle.shared_office.specs.Pins.{KeepsPins};
ghost use Rattle.snapshot_value.specs.Valuing.{most_turns};
ghost use Rattle.cash_projection.specs.Pinned.{HasProjected};

use crate::printing::Projection;
use crate::tallier::{CashQuery, Tallier};
use basis_book::Basis;
use outside_io::{Disk, Gate};
use policy_types::At;
use shared_office::{Office, OfficePass};
use snapshot_value::{NO_LANE, ValueFault, read_pinned};
use std::alloc::Global;
use std::sync::Wait;
use std::thread::Threads;
use turn_lock::Turned;
use watcher_set::Watching;

/// What the policies of the book, at the newest position, are expected to pay and to be paid, from a day on (in days
/// since 1970-01-01), in each of `years` policy years from the current one; and the turn of the pin.
///
/// The policies are read by the turns of `policies`. They are tallied by the workers at the same time, whenever there
/// are 131,072 of them or none is left to read. The bytes of the answer are the same for any number of workers.
pub fn project<D: Disk, W: Watching, G: Gate, R: Threads + Wait + Sync>(
    rt: &R,
    alloc: Global,
    office: &Office<D, W>,
    pass: &mut OfficePass<D, W>,
    basis: &Basis,
    on: i32,
    years: u8,
    workers: u8,
    gate: &G,
) -> Turned<Result<Projection, ValueFault>>
    requires ours { pass.old.turnstile ≡ office.now }
    requires years { (1 ≤ years) × (years ≤ 131) }
    requires workers { (1 ≤ workers) × (workers ≤ 64) }
    requires left { most_turns ≤ pass.old.left }
    ensures projected { HasProjected basis.now on years Now pass.old pass.new result.turn result.answer }
    ensures facts { PassFacts IsOfficeHistory pass.new }
    ensures pins { KeepsPins pass.old pass.new }
{
    let query = CashQuery {
        basis,
        on,
        years,
        workers,
    };
    read_pinned::<D, W, G, R, Tallier<'_>>(rt, alloc, office, pass, query, At::Now, NO_LANE, gate)
}
