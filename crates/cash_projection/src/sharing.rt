// The tally of a list of policies, by several workers at the same time.
ghost use Rattle.std.specs.Prelude.{◌≡◌, ◌≤◌, ◌*◌, IfOk, OnOk, length, ℤ, List};
ghost use Rattle.cash_projection.specs.Names.{AllByRecursion, Dated, most_commands};
ghost use Rattle.parallel_value.specs.Pieces.{AreAsBefore};
ghost use Rattle.cash_projection.specs.Policies.{IsOfIssue};
ghost use Rattle.cash_projection.specs.inside.Portions.{AreTallies, AreTalliesOfFew, GivesTally, IsProjectorFor, TakesPortion, policies_of_portions};
ghost use Rattle.cash_projection.specs.inside.Tallies.{IsTallyOf};
ghost use Rattle.cash_projection.specs.declared.portions.Portion.{Portion as APortion};

use crate::path::SurvivalPath;
use crate::paths::Paths;
use crate::portions::{POLICIES_IN_PORTION, portions_of};
use crate::projector::Projector;
use crate::tally::Tally;
use basis_book::Basis;
use memory_requests::with_room;
use parallel_value::map_onto;
use policy_types::{NoMemory, Policy};
use std::alloc::Global;
use std::mem::size_of;
use std::thread::Threads;

/// The policies that are tallied together.
pub const POLICIES_IN_ROOM: usize = 131_072;

/// The most portions, enough for all policies that there may be.
const MOST_PORTIONS: usize = 1_024;

/// The number of paths that all workers keep together.
const PATHS_TOGETHER: usize = 768;

/// The most paths of one worker: a table has 131 ages.
const MOST_PATHS: usize = 237;

/// The tallies of a room's portions are in memory twice: as they were made, and in their order.
const TALLIES_OF_A_ROOM: usize = 2 * POLICIES_IN_ROOM / POLICIES_IN_PORTION;

// So it stays below 4 MiB, with 128 KiB for everything else.
const _: () = prove!(
    PATHS_TOGETHER * size_of::<SurvivalPath>() + TALLIES_OF_A_ROOM * size_of::<Tally>() <= 4_063_232
);

/// The tally of policies, by all workers, each of which takes the next portion that none has taken. It is the same
/// for any number of workers.
/// number of them.
pub fn tally_in<R: Threads + Sync>(
    rt: &R,
    alloc: Global,
    projectors: &mut [Projector<'_>],
    policies: &[Policy],
    years: u8,
) -> Result<Tally, NoMemory>
    requires workers { (1 ≤ length projectors.old) × (length projectors.old ≤ 64) }
    requires years { years ≤ 131 }
    requires each { (basis : List Dated) × ((on : ℤ) × AllByRecursion (IsProjectorFor basis on years) projectors.old) }
    requires sound { AllByRecursion IsOfIssue policies.now }
    requires few { length policies.now ≤ most_commands }
    ensures tally { (basis : List Dated) (on : ℤ) → AllByRecursion (IsProjectorFor basis on years) projectors.old
        → IfOk result (λ tally. IsTallyOf basis on years policies.now tally) }
    ensures projectors { OnOk result (AreAsBefore TakesPortion GivesTally projectors.old projectors.new) }
{
    let portions = portions_of(alloc, policies)?;
    let mut tallies = with_room(alloc, portions.len().min(MOST_PORTIONS))?;
    map_onto(rt, alloc, projectors, portions.as_slice(), 1, &mut tallies)?;
    Ok(joined(years, tallies.as_slice()))
}

/// So many workers, each with paths of its own.
pub fn projectors_for<'a>(
    alloc: Global,
    basis: &'a Basis,
    on: i32,
    years: u8,
    many: usize,
) -> Result<Vec<Projector<'a>>, NoMemory>
    requires many { (1 ≤ many) × (many ≤ 64) }
    requires years { years ≤ 131 }
    ensures many { IfOk result (λ projectors. length projectors.items ≡ many) }
    ensures each { IfOk result (λ projectors. AllByRecursion (IsProjectorFor basis.now on years) projectors.items) }
{
    let paths_kept = paths_of_a_worker(many);
    let mut projectors = with_room(alloc, many)?;
    for _ in 0..many {
        let paths = Paths::new(alloc, paths_kept)?;
        projectors.push_reserved(Projector {
            basis,
            on,
            years,
            paths,
        });
    }
    Ok(projectors)
}

// The paths that each of so many workers keeps.
fn paths_of_a_worker(many: usize) -> u16
    requires { (1 ≤ many) × (many ≤ 64) }
    ensures some { 1 ≤ result }
    ensures together { many * result ≤ 768 }
{
    (PATHS_TOGETHER / many).min(MOST_PATHS) as u16
}

// All tallies together, in their order.
fn joined(years: u8, tallies: &[Tally]) -> Tally
    requires years { years ≤ 131 }
    requires few { AreTalliesOfFew years tallies.now }
    ensures { (basis : List Dated) (on : ℤ) (portions : List APortion) → AreTallies basis on years portions tallies.now
        → IsTallyOf basis on years (policies_of_portions portions) result }
{
    let mut all = Tally::new(years);
    for tally in tallies {
        all.join(tally);
    }
    all
}
