// A valuation of the policies at a position.
ghost use Rattle.std.specs.Prelude.{◌≡◌, ◌≤◌};
ghost use Rattle.snapshot_value.specs.Names.{PassFacts, IsOfficeHistory, KeepsPins};
ghost use Rattle.snapshot_value.specs.Valuing.{HasValued, IsValuationAt, most_turns};
ghost use Rattle.snapshot_value.specs.inside.Sheets.{HasMade};

use crate::reader::Reader;
use crate::reading::read_pinned;
use crate::valuation::{Query, Valuation, ValueFault};
use crate::worksheet::Worksheet;
use outside_io::{Disk, Gate};
use policy_types::{At, NoMemory, Policy};
use policy_value::{Measure, Rows};
use shared_office::{Office, OfficePass};
use std::alloc::Global;
use std::sync::Wait;
use std::thread::Threads;
use turn_lock::Turned;
use watcher_set::Watching;

// It values the policies as they are read, whenever there are enough of them.
#[derive(Drop)]
struct Valuer<'a> {
    on: i32,
    measure: Measure,
    sheet: Worksheet<'a>,
}

impl<'a> Reader for Valuer<'a> {
    type Plan = Query<'a>;

    type Made = Valuation;

    ghost can_begin = { λ query. (1 ≤ query.workers) × (query.workers ≤ 64) };

    ghost has_read = { λ query valuer policies. (valuer.on ≡ query.on) × (valuer.measure ≡ query.measure)
        × HasMade query.basis.now query.on query.measure policies valuer.sheet };

    ghost gives = { λ query position policies valuation.
        IsValuationAt query.basis.now query.on query.measure position policies valuation };

    fn begin(alloc: Global, plan: Query<'a>, policies: usize) -> Result<Valuer<'a>, NoMemory> {
        let Query {
            basis,
            on,
            measure,
            workers,
        } = plan;
        let sheet = Worksheet::new(alloc, basis, on, measure, workers, policies)?;
        Ok(Valuer { on, measure, sheet })
    }

    fn part<R: Threads + Sync>(
        &mut self,
        rt: &R,
        alloc: Global,
        part: &[Policy],
    ) -> Result<(), NoMemory> {
        self.sheet.add(rt, alloc, part)
    }

    fn made<R: Threads + Sync>(
        self,
        rt: &R,
        alloc: Global,
        position: u32,
    ) -> Result<Valuation, NoMemory> {
        let Valuer {
            on,
            measure,
            mut sheet,
        } = self;
        sheet.value_read(rt, alloc)?;
        Ok(Valuation {
            position,
            on,
            measure,
            rows: Rows::new(sheet.into_rows()),
        })
    }
}

/// Values the policies at a position, and returns the turn of the pin.
///
/// The position is pinned, and the memory is taken. Then batches of 256 policies are read, and the gate is called
/// with the lane's number and `k` after the `k`-th batch. What was read is valued by the workers at the same time,
/// when there are 32,768 policies for each of them or 131,072 in all, or when none is left to read. Whatever is
/// returned, the pin is given up.
pub fn value<D: Disk, W: Watching, G: Gate, R: Threads + Wait + Sync>(
    rt: &R,
    alloc: Global,
    office: &Office<D, W>,
    pass: &mut OfficePass<D, W>,
    query: Query<'_>,
    at: At,
    lane: u8,
    gate: &G,
) -> Turned<Result<Valuation, ValueFault>>
    requires ours { pass.old.turnstile ≡ office.now }
    requires workers { (1 ≤ query.workers) × (query.workers ≤ 64) }
    requires left { most_turns ≤ pass.old.left }
    ensures valued { HasValued query.entry.basis.now query.entry.on query.entry.measure at query.entry.workers
        pass.old pass.new result.turn result.answer }
    ensures facts { PassFacts IsOfficeHistory pass.new }
    ensures pins { KeepsPins pass.old pass.new }
{
    read_pinned::<D, W, G, R, Valuer<'_>>(rt, alloc, office, pass, query, at, lane, gate)
}
