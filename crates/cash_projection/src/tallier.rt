// The policies at a position are tallied as they are read. Those that were read and aren't tallied yet are in a list
// of fixed capacity, which the code calls the room.
ghost use Rattle.std.specs.Prelude.{◌≡◌, ◌≤◌, ◌<◌, ℕ, ℤ, List, [], ◌++◌, OnOk, length};
ghost use Rattle.cash_projection.specs.Names.{AllByRecursion, Dated, APolicy};
ghost use Rattle.policy_machine.specs.Rules.{IsSound};
ghost use Rattle.cash_projection.specs.Pinned.{IsProjectionAt};
ghost use Rattle.cash_projection.specs.inside.Rooms.{CanTally, HasTallied};

use crate::printing::Projection;
use crate::projector::Projector;
use crate::sharing::{POLICIES_IN_ROOM, projectors_for, tally_in};
use crate::tally::Tally;
use basis_book::Basis;
use memory_requests::{extend, with_room};
use policy_types::{NoMemory, Policy};
use snapshot_value::{POLICIES_TO_A_WORKER, Reader};
use std::alloc::Global;
use std::thread::Threads;

/// By what the policies are projected.
#[derive(Clone, Copy)]
pub struct CashQuery<'a> {
    pub basis: &'a Basis,
    /// The day of the projection, in days since 1970-01-01.
    pub on: i32,
    pub years: u8,
    /// How many workers are asked for, from 1 to 64.
    pub workers: u8,
}

/// The workers, each with paths of its own for the whole projection; the policies that were read and aren't tallied
/// yet, in a room that is used again; and the tally of those before them.
#[derive(Drop)]
pub struct Tallier<'a> {
    on: i32,
    projectors: Vec<Projector<'a>>,
    room: Vec<Policy>,
    tally: Tally,
}

impl<'a> Reader for Tallier<'a> {
    type Plan = CashQuery<'a>;

    type Made = Projection;

    ghost can_begin = { λ query. (query.years ≤ 131) × (1 ≤ query.workers) × (query.workers ≤ 64) };

    ghost has_read = { λ query tallier policies. HasTallied query.basis.now query.on query.years policies tallier };

    ghost gives = { λ query position policies projection.
        IsProjectionAt query.basis.now query.on query.years position policies projection };

    fn begin(alloc: Global, plan: CashQuery<'a>, policies: usize) -> Result<Tallier<'a>, NoMemory> {
        let CashQuery {
            basis,
            on,
            years,
            workers,
        } = plan;
        let many = (policies / POLICIES_TO_A_WORKER).clamp(1, usize::from(workers));
        let projectors = projectors_for(alloc, basis, on, years, many)?;
        let room = with_room(alloc, policies.min(POLICIES_IN_ROOM))?;
        let tally = Tally::new(years);
        Ok(Tallier {
            on,
            projectors,
            room,
            tally,
        })
    }

    fn part<R: Threads + Sync>(
        &mut self,
        rt: &R,
        alloc: Global,
        part: &[Policy],
    ) -> Result<(), NoMemory> {
        self.make_room(rt, alloc)?;
        self.put(part)
    }

    fn made<R: Threads + Sync>(
        self,
        rt: &R,
        alloc: Global,
        position: u32,
    ) -> Result<Projection, NoMemory> {
        let on = self.on;
        let mut tallier = self;
        tallier.tally_room(rt, alloc)?;
        let years = tallier.tally.cash(alloc)?;
        Ok(Projection {
            position,
            on,
            policies: tallier.tally.policies,
            unvalued: tallier.tally.unvalued,
            years,
        })
    }
}

impl Tallier<'_> {
    // Tallies the policies that were read, if the room is full.
    fn make_room<R: Threads + Sync>(&mut self, rt: &R, alloc: Global) -> Result<(), NoMemory>
        requires can { CanTally self.old }
        ensures room { OnOk result (length self.new.room.items < 131072) }
        ensures tallied { (basis : List Dated) (on : ℤ) (years : ℕ) (policies : List APolicy)
            → HasTallied basis on years policies self.old
            → OnOk result (HasTallied basis on years policies self.new) }
    {
        if self.room.len() < POLICIES_IN_ROOM {
            return Ok(());
        }
        self.tally_room(rt, alloc)
    }

    // Tallies the policies that were read.
    fn tally_room<R: Threads + Sync>(&mut self, rt: &R, alloc: Global) -> Result<(), NoMemory>
        requires can { CanTally self.old }
        ensures none { OnOk result (self.new.room.items ≡ []) }
        ensures tallied { (basis : List Dated) (on : ℤ) (years : ℕ) (policies : List APolicy)
            → HasTallied basis on years policies self.old
            → OnOk result (HasTallied basis on years policies self.new) }
    {
        let projectors = self.projectors.as_mut_slice();
        let policies = self.room.as_slice();
        let tally = tally_in(rt, alloc, projectors, policies, self.tally.years)?;
        self.tally.join(&tally);
        self.room.clear();
        Ok(())
    }

    // Adds policies after those that were read.
    fn put(&mut self, part: &[Policy]) -> Result<(), NoMemory>
        requires sound { AllByRecursion IsSound part.now }
        ensures { (basis : List Dated) (on : ℤ) (years : ℕ) (policies : List APolicy)
            → HasTallied basis on years policies self.old
            → OnOk result (HasTallied basis on years (policies ++ part.now) self.new) }
    {
        extend(&mut self.room, part)?;
        Ok(())
    }
}
