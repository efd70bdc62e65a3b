// The paths that are kept for later policies.
ghost use Rattle.std.specs.Prelude.{◌≡◌, ◌≤◌, ◌<◌, IfOk, List, length, slice_index_or};
ghost use Rattle.cash_projection.specs.Names.{HoldsAge, Dated};
ghost use Rattle.cash_projection.specs.inside.Paths.{ArePaths, AreRatesOf, IsPathKept, IsPathAt, path_slot};
ghost use Rattle.cash_projection.specs.declared.path.SurvivalPath.{SurvivalPath as APath};

use crate::path::{PathKey, SurvivalPath};
use basis_book::Basis;
use memory_requests::filled;
use policy_types::NoMemory;
use rate_table::RateTable;
use std::alloc::Global;

/// Those alive of each age, as they were computed for earlier policies. They serve policies of every day of issue,
/// plan and year that have the age by the same table.
#[derive(Drop)]
pub struct Paths {
    kept: Vec<SurvivalPath>,
}

impl Paths {
    /// A store for at most `most` paths, of some 4 kB each; one table has at most 131.
    pub fn new(alloc: Global, most: u16) -> Result<Paths, NoMemory>
        requires { 1 ≤ most }
        ensures { IfOk result (λ paths. (basis : List Dated) → ArePaths basis paths) }
    {
        let kept = filled(alloc, SurvivalPath::none(), most as usize)?;
        Ok(Paths { kept })
    }

    /// Where the path of a key is, by the rates of its row of the basis.
    pub fn place_of(&mut self, basis: &Basis, key: PathKey, rates: &RateTable) -> usize
        requires right { ArePaths basis.now self.old }
        requires rates { AreRatesOf basis.now key rates.now }
        requires age { HoldsAge rates.now key.age × (key.age ≤ 130) }
        ensures right { ArePaths basis.now self.new }
        ensures here { IsPathAt rates.now key.age self.new.kept.items result }
        ensures slot { result ≡ path_slot key (length self.old.kept.items) }
        // A path that is found isn't computed again.
        ensures found { IsPathKept self.old.kept.items key result → self.new ≡ self.old }
    {
        let place = slot_of(key, self.kept.len());
        if self.kept[place].key.is(key) {
            return place;
        }
        self.kept[place] = SurvivalPath::of(key, rates);
        place
    }

    /// The path at a place.
    pub fn at(&self, place: usize) -> &SurvivalPath
        requires { place < length self.now.kept.items }
        ensures { (none : APath) → result.now ≡ slice_index_or self.now.kept.items place none }
    {
        &self.kept[place]
    }
}

// The place of a key, among `count`. With 131 places or more, the ages of one table have places of their own.
fn slot_of(key: PathKey, count: usize) -> usize
    requires { 1 ≤ count }
    ensures is { result ≡ path_slot key count }
    ensures within { result < count }
{
    (key.row as usize * 131 + key.issue as usize * 17 + key.age as usize) % count
}
