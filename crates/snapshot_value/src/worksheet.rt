// What a valuation holds: its workers, the policies that were read last, and the rows of those before them.
ghost use Rattle.std.specs.Prelude.{◌≡◌, ◌≤◌, ◌<◌, ℤ, List, [], ◌++◌, ◌+◌, IfOk, OnOk, length, take, drop};
ghost use Rattle.snapshot_value.specs.Names.{AllByRecursion, Dated, IsSound, APolicy, AMeasure};
ghost use Rattle.parallel_value.specs.Pieces.{AddsBehind, AreAsBefore};
ghost use Rattle.snapshot_value.specs.inside.Sheets.{AreSmallRows, IsSheetReady, HasMade, valued_together};
ghost use Rattle.snapshot_value.specs.inside.Workers.{GivesRow, IsReadyWorker, TakesPolicy, ValuesBy};

use crate::shares::POLICIES_TO_A_WORKER;
use crate::worker::Worker;
use basis_book::Basis;
use memory_requests::{extend, with_room};
use parallel_value::map_onto;
use policy_types::{MOST_COMMANDS, NoMemory, Policy};
use policy_value::{ColumnCache, Measure, Row};
use std::alloc::Global;
use std::thread::Threads;

/// The most workers: with more, the parts get smaller, and each cache serves fewer policies.
const MOST_VALUERS: u8 = 16;

/// The policies that are read for each worker before they are valued: new threads spread over the processors only if
/// they work for some milliseconds.
const POLICIES_READ_FOR_A_WORKER: usize = 32_768;

/// The most policies that are read before they are valued.
const POLICIES_TOGETHER: usize = 131_072;

/// The policies that a worker takes at a time.
const POLICIES_IN_PART: usize = 512;

/// The columns of present values that all workers together keep, of some 2 kB each.
const COLUMNS_KEPT: u32 = 8_192;

/// The number of policies' keys whose premiums all workers together keep.
const PREMIUMS_KEPT: u32 = 65_536;

/// The workers, each with a cache of its own for the whole valuation; the policies that were read and aren't valued
/// yet; and the rows of those before them.
#[derive(Drop)]
pub struct Worksheet<'a> {
    workers: Vec<Worker<'a>>,
    read: Vec<Policy>,
    rows: Vec<Row>,
}

impl<'a> Worksheet<'a> {
    /// Takes the memory for the rows of `policies` policies. There are as many workers as are asked for, but at most
    /// sixteen, and fewer if each would have too few policies.
    pub fn new(
        alloc: Global,
        basis: &'a Basis,
        on: i32,
        measure: Measure,
        workers: u8,
        policies: usize,
    ) -> Result<Worksheet<'a>, NoMemory>
        requires { (1 ≤ workers) × (workers ≤ 64) }
        ensures { IfOk result (λ sheet. HasMade basis.now on measure [] sheet) }
    {
        let many = (policies / POLICIES_TO_A_WORKER).clamp(
            1,
            usize::from(workers.min(MOST_VALUERS)),
        );
        let workers = workers_for(alloc, basis, on, measure, many)?;
        let read = with_room(alloc, together(many).min(policies))?;
        let rows = with_room(alloc, policies.min(MOST_COMMANDS as usize))?;
        Ok(Worksheet {
            workers,
            read,
            rows,
        })
    }

    /// Adds policies to those that were read. If these are enough to be valued, they are valued first.
    pub fn add<R: Threads + Sync>(
        &mut self,
        rt: &R,
        alloc: Global,
        part: &[Policy],
    ) -> Result<(), NoMemory>
        requires can { IsSheetReady self.old }
        requires sound { AllByRecursion IsSound part.now }
        ensures made { (basis : List Dated) (on : ℤ) (measure : AMeasure) (policies : List APolicy)
            → HasMade basis on measure policies self.old
            → OnOk result (HasMade basis on measure (policies ++ part.now) self.new) }
        // Before the call there were fewer than are valued together.
        ensures held { OnOk result
            (length self.new.read.items < valued_together (length self.old.workers.items) + length part.now) }
    {
        self.make_room(rt, alloc)?;
        self.put(part)
    }

    // Values the policies that were read, if they are enough.
    fn make_room<R: Threads + Sync>(&mut self, rt: &R, alloc: Global) -> Result<(), NoMemory>
        requires can { IsSheetReady self.old }
        ensures room { OnOk result (length self.new.read.items < valued_together (length self.old.workers.items)) }
        ensures made { (basis : List Dated) (on : ℤ) (measure : AMeasure) (policies : List APolicy)
            → HasMade basis on measure policies self.old
            → OnOk result (HasMade basis on measure policies self.new) }
    {
        if self.read.len() < together(self.workers.len()) {
            return Ok(());
        }
        self.value_read(rt, alloc)
    }

    /// Values the policies that were read: the workers add the rows to those that are there.
    pub fn value_read<R: Threads + Sync>(&mut self, rt: &R, alloc: Global) -> Result<(), NoMemory>
        requires can { IsSheetReady self.old }
        ensures can { OnOk result (IsSheetReady self.new) }
        ensures none { OnOk result (self.new.read.items ≡ []) }
        ensures made { (basis : List Dated) (on : ℤ) (measure : AMeasure) (policies : List APolicy)
            → HasMade basis on measure policies self.old
            → OnOk result (HasMade basis on measure policies self.new) }
    {
        let policies = self.read.as_slice();
        let workers = self.workers.as_mut_slice();
        value_all(rt, alloc, workers, policies, &mut self.rows)?;
        self.read.clear();
        Ok(())
    }

    // Adds policies after those that were read.
    fn put(&mut self, part: &[Policy]) -> Result<(), NoMemory>
        requires sound { AllByRecursion IsSound part.now }
        ensures made { (basis : List Dated) (on : ℤ) (measure : AMeasure) (policies : List APolicy)
            → HasMade basis on measure policies self.old
            → OnOk result (HasMade basis on measure (policies ++ part.now) self.new) }
        ensures longer { OnOk result (length self.new.read.items ≡ length self.old.read.items + length part.now) }
    {
        extend(&mut self.read, part)
    }

    /// The rows of the policies that were valued.
    pub fn into_rows(self) -> Vec<Row>
        ensures { result.items ≡ self.entry.rows.items }
    {
        let Worksheet { rows, .. } = self;
        rows
    }
}

// How many policies so many workers value together.
fn together(workers: usize) -> usize
    requires { workers ≤ 64 }
    ensures { result ≡ valued_together workers }
{
    (POLICIES_READ_FOR_A_WORKER * workers).min(POLICIES_TOGETHER)
}

// The workers, among which what is kept is divided.
fn workers_for<'a>(
    alloc: Global,
    basis: &'a Basis,
    on: i32,
    measure: Measure,
    many: usize,
) -> Result<Vec<Worker<'a>>, NoMemory>
    requires { (1 ≤ many) × (many ≤ 64) }
    ensures many { IfOk result (λ workers. length workers.items ≡ many) }
    ensures ready { IfOk result (λ workers. AllByRecursion IsReadyWorker workers.items) }
    ensures by { IfOk result (λ workers. AllByRecursion (ValuesBy basis.now on measure) workers.items) }
{
    let share = many as u32;
    let mut workers = with_room(alloc, many)?;
    for _ in 0..many {
        let cache = ColumnCache::with_room(alloc, COLUMNS_KEPT / share, PREMIUMS_KEPT / share)?;
        workers.push_reserved(Worker {
            basis,
            on,
            measure,
            cache,
        });
    }
    Ok(workers)
}

// Adds the rows of policies, by all workers.
fn value_all<R: Threads + Sync>(
    rt: &R,
    alloc: Global,
    workers: &mut [Worker<'_>],
    policies: &[Policy],
    rows: &mut Vec<Row>,
) -> Result<(), NoMemory>
    requires some { 1 ≤ length workers.old }
    requires few { length workers.old ≤ 64 }
    requires ready { AllByRecursion IsReadyWorker workers.old }
    requires sound { AllByRecursion IsSound policies.now }
    ensures rows { (basis : List Dated) (on : ℤ) (measure : AMeasure) → AllByRecursion (ValuesBy basis on measure) workers.old
        → OnOk result (AddsBehind (AreSmallRows basis on measure policies.now) rows.old.items rows.new.items) }
    ensures workers { AreAsBefore TakesPolicy GivesRow workers.old workers.new }
{
    map_onto(rt, alloc, workers, policies, POLICIES_IN_PART, rows)?;
    Ok(())
}
