// A list of the policies at a position.
ghost use Rattle.std.specs.Prelude.{◌≡◌, ◌≤◌, ⊤};
ghost use Rattle.snapshot_value.specs.Names.{PassFacts, IsOfficeHistory, KeepsPins};
ghost use Rattle.snapshot_value.specs.Listing.{HasListed, IsBookAt};
ghost use Rattle.snapshot_value.specs.Valuing.{most_turns};

use crate::reader::Reader;
use crate::reading::read_pinned;
use crate::valuation::{Policies, ValueFault};
use memory_requests::{extend, with_room};
use outside_io::{Disk, Gate};
use policy_types::{At, MOST_COMMANDS, NoMemory, Policy, Slice};
use shared_office::{Office, OfficePass};
use std::alloc::Global;
use std::sync::Wait;
use std::thread::Threads;
use turn_lock::Turned;
use watcher_set::Watching;

// It keeps the policies as they are read.
#[derive(Drop)]
struct Lister {
    book: Vec<Policy>,
}

impl Reader for Lister {
    type Plan = ();

    type Made = Policies;

    ghost can_begin = { λ plan. ⊤ };

    ghost has_read = { λ plan lister policies. lister.book.items ≡ policies };

    ghost gives = { λ plan position policies listed. IsBookAt position policies listed };

    fn begin(alloc: Global, _plan: (), policies: usize) -> Result<Lister, NoMemory> {
        let book = with_room(alloc, policies.min(MOST_COMMANDS as usize))?;
        Ok(Lister { book })
    }

    fn part<R: Threads + Sync>(
        &mut self,
        _rt: &R,
        _alloc: Global,
        part: &[Policy],
    ) -> Result<(), NoMemory> {
        extend(&mut self.book, part)
    }

    fn made<R: Threads + Sync>(
        self,
        _rt: &R,
        _alloc: Global,
        position: u32,
    ) -> Result<Policies, NoMemory> {
        let book = Slice::new(self.book);
        Ok(Policies { position, book })
    }
}

/// The policies at a position, and the turn of the pin.
///
/// The position is pinned, and the memory is taken. Then batches of 256 policies are read, and the gate is called
/// with the lane's number and `k` after the `k`-th batch. Whatever is returned, the pin is given up.
pub fn policies<D: Disk, W: Watching, G: Gate, R: Threads + Wait + Sync>(
    rt: &R,
    alloc: Global,
    office: &Office<D, W>,
    pass: &mut OfficePass<D, W>,
    at: At,
    lane: u8,
    gate: &G,
) -> Turned<Result<Policies, ValueFault>>
    requires ours { pass.old.turnstile ≡ office.now }
    requires left { most_turns ≤ pass.old.left }
    ensures listed { HasListed at pass.old pass.new result.turn result.answer }
    ensures facts { PassFacts IsOfficeHistory pass.new }
    ensures pins { KeepsPins pass.old pass.new }
{
    read_pinned::<D, W, G, R, Lister>(rt, alloc, office, pass, (), at, lane, gate)
}
