ghost use Rattle.std.specs.Prelude.{◌≡◌, ◌<◌};
ghost use Rattle.std.proofs.Common.{rules};
ghost use Rattle.std.specs.Cmp.Rules.{hashing};
ghost use Rattle.std.specs.Hash as fed;
ghost use Rattle.policy_value.specs.Keys.{key_number, plan_number};

use policy_types::Plan;
use std::hash::{Hash, Hasher};

/// What the premium of a policy depends on: the row of the basis by which it is valued, counted from 0, its plan, its
/// age at issue and the years of its plan.
#[derive(Clone, Copy, PartialEq, Eq, Debug)]
pub struct CacheKey {
    pub basis_row: u16,
    pub plan: Plan,
    pub age: u8,
    pub years: u8,
}

impl Hash for CacheKey {
    ghost use Rattle.policy_value.specs.Keys.{key_number};

    ghost hash_input = { λ key. fed.u64 (key_number key) };

    ghost respects_eq = { Prim.search (hashing, rules) };

    fn hash<H: Hasher>(&self, state: &mut H) {
        self.number().hash(state);
    }
}

impl CacheKey {
    // One number for each key.
    fn number(&self) -> u64
        ensures { result ≡ key_number self.now }
    {
        let policy = 256 * self.age as u64 + self.years as u64;
        65536 * (4 * self.basis_row as u64 + plan_number(self.plan)) + policy
    }
}

/// One number for each plan.
pub fn plan_number(plan: Plan) -> u64
    ensures is { result ≡ plan_number plan }
    ensures small { result < 4 }
{
    match plan {
        Plan::Term => 0,
        Plan::Whole => 1,
        Plan::Endowment => 2,
        Plan::Limited => 3,
    }
}
