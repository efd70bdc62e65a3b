// A shelf in memory.
ghost use Rattle.std.specs.Prelude.{◌≡◌, ℕ, ◌<◌, ◌≤◌, ◌↔◌, ◌∷◌, [], Option, None, Some, List, length, vec_len, IfOk, OnOk, IfSome, IsSomeAnd, IsErrOf};
ghost use Rattle.outside_io.specs.Faults.{Rose};
ghost use Rattle.outside_io.specs.FileNames.{IsName};
ghost use Rattle.outside_io.specs.Plans.{FailsNext, plan_faults, plan_failing, plan_calls, number_after};
ghost use Rattle.outside_io.specs.Memory.{shelf_asked, shelf_at, shelf_plan, map_at};
ghost use Rattle.outside_io.specs.Shelves.{Files, AreFiles, same_files};

use crate::asked_names::AskedNames;
use crate::shelves::SHELF_LIMIT;
use crate::{FaultPlan, FetchFault, Shelf};
use memory_requests::copied;
use std::alloc::Global;
use std::collections::BTreeMap;

/// Gives the files of a map, and fails at the calls whose numbers, from 1, it is told.
#[derive(Drop)]
pub struct MapShelf {
    files: BTreeMap<String, Vec<u8>>,
    plan: FaultPlan,
    asked: AskedNames,
}

impl MapShelf {
    pub fn new(files: BTreeMap<String, Vec<u8>>, failing: Vec<u64>) -> MapShelf
        ensures files { (name : List ℕ) → shelf_at result name ≡ map_at files name }
        ensures failing { plan_failing (shelf_plan result) ≡ failing.items }
        ensures calls { plan_calls (shelf_plan result) ≡ 0 }
        ensures faults { plan_faults (shelf_plan result) ≡ 0 }
        ensures asked { shelf_asked result ≡ [] }
    {
        MapShelf {
            files,
            plan: FaultPlan::new(failing),
            asked: AskedNames::new(),
        }
    }
}

impl Shelf for MapShelf {
    ghost faults = { λ s. plan_faults (shelf_plan s) };

    ghost files = { λ s. Some (shelf_at s) };

    ghost agrees = { λ s at. AreFiles (shelf_at s) at };

    ghost asked = { λ s. shelf_asked s };

    ghost agrees_with_files = { λ s at same. same_files (shelf_at s) at same };

    fn faults(&self) -> u64 {
        self.plan.faults()
    }

    fn fetch(&mut self, alloc: Global, name: &str) -> Result<Vec<u8>, FetchFault>
        requires name { IsName name.now }
        ensures agreed { (at : Files) → AreFiles (shelf_at self.new) at
            → AreFiles (shelf_at self.old) at }
        ensures found { (at : Files) → AreFiles (shelf_at self.new) at
            → IfOk result (λ bytes. at name.now ≡ Some bytes.items) }
        ensures within { IfOk result (λ bytes. vec_len bytes ≤ SHELF_LIMIT) }
        ensures absent { (at : Files) → AreFiles (shelf_at self.new) at
            → IsErrOf result FetchFault.Absent → at name.now ≡ None }
        ensures too_long { (at : Files) → AreFiles (shelf_at self.new) at
            → IsErrOf result FetchFault.TooLong
            → IsSomeAnd (at name.now) (λ bytes. SHELF_LIMIT < length bytes) }
        ensures failed { IsErrOf result FetchFault.Failed
            → Rose (plan_faults (shelf_plan self.old)) (plan_faults (shelf_plan self.new)) }
        ensures counted { plan_faults (shelf_plan self.old) < plan_faults (shelf_plan self.new)
            → IsErrOf result FetchFault.Failed }
        ensures later { plan_faults (shelf_plan self.old) ≤ plan_faults (shelf_plan self.new) }
        ensures asked { shelf_asked self.new ≡ name.now ∷ shelf_asked self.old }
        ensures stays { shelf_at self.new ≡ shelf_at self.old }
        ensures fails { IsErrOf result FetchFault.Failed ↔ FailsNext (shelf_plan self.old) }
        ensures failing { plan_failing (shelf_plan self.new) ≡ plan_failing (shelf_plan self.old) }
        ensures calls { plan_calls (shelf_plan self.new) ≡ number_after (plan_calls (shelf_plan self.old)) }
    {
        self.asked.note(name);
        if self.plan.fails_next() {
            self.plan.add_fault();
            return Err(FetchFault::Failed);
        }
        take_copy(alloc, &self.files, name)
    }
}

// The bytes of the file with this name, where it is there and short enough.
fn take_copy(
    alloc: Global,
    files: &BTreeMap<String, Vec<u8>>,
    name: &str,
) -> Result<Vec<u8>, FetchFault>
    ensures found { IfOk result (λ bytes. map_at files.now name.now ≡ Some bytes.items) }
    ensures within { IfOk result (λ bytes. vec_len bytes ≤ SHELF_LIMIT) }
    ensures absent { IsErrOf result FetchFault.Absent → map_at files.now name.now ≡ None }
    ensures too_long { IsErrOf result FetchFault.TooLong
        → IsSomeAnd (map_at files.now name.now) (λ bytes. SHELF_LIMIT < length bytes) }
    ensures no_fault { IsErrOf result FetchFault.Failed → ⊥ }
{
    match files.get(name) {
        None => Err(FetchFault::Absent),
        Some(bytes) if bytes.len() > SHELF_LIMIT as usize => Err(FetchFault::TooLong),
        Some(bytes) => match copied(alloc, bytes) {
            Ok(copy) => Ok(copy),
            Err(lack) => Err(FetchFault::NoMemory(lack)),
        },
    }
}
