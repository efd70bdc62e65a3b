ghost use Rattle.std.specs.Prelude.{◌≤◌, ℕ, List, [], ◌++◌, ◌+◌, IfOk, OnOk, length};
ghost use Rattle.snapshot_value.specs.Names.{AllByRecursion, most_commands, APolicy, IsSound, IsSync};

use policy_types::{NoMemory, Policy};
use std::alloc::Global;
use std::thread::Threads;

/// Something that is made of the policies at a position, which are read in parts.
pub trait Reader {
    /// What is asked for.
    type Plan: Drop;

    type Made: Drop;

    /// This may be asked for.
    ghost can_begin: { Self.Plan → Type 0 };

    /// By this plan it has read these policies.
    ghost has_read: { Self.Plan → Self → List APolicy → Type 0 };

    /// This is what the plan asks for, from the policies at a position.
    ghost gives: { Self.Plan → ℕ → List APolicy → Self.Made → Type 0 };

    /// Takes the memory that `policies` policies need. It has read none yet.
    fn begin(alloc: Global, plan: Self::Plan, policies: usize) -> Result<Self, NoMemory>
        requires { can_begin plan }
        ensures { IfOk result (λ reader. has_read plan reader []) };

    /// Reads the next policies.
    fn part<R: Threads + Sync>(
        &mut self,
        rt: &R,
        alloc: Global,
        part: &[Policy],
    ) -> Result<(), NoMemory>
        requires sync { IsSync R.row }
        requires begun { (plan : Self.Plan) × ((before : List APolicy) × has_read plan self.old before
            × (length before + length part.now ≤ most_commands)) }
        requires sound { AllByRecursion IsSound part.now }
        ensures { (plan : Self.Plan) (before : List APolicy) → has_read plan self.old before
            → OnOk result (has_read plan self.new (before ++ part.now)) };

    /// What is made of all policies at this position.
    fn made<R: Threads + Sync>(
        self,
        rt: &R,
        alloc: Global,
        position: u32,
    ) -> Result<Self::Made, NoMemory>
        requires sync { IsSync R.row }
        requires begun { (plan : Self.Plan) × ((policies : List APolicy) × has_read plan self policies
            × (length policies ≤ most_commands)) }
        ensures { (plan : Self.Plan) (policies : List APolicy) → has_read plan self policies
            → length policies ≤ most_commands → AllByRecursion IsSound policies
            → IfOk result (gives plan position policies) };
}
