use office_state::PolicyBatch;
use policy_types::{NoMemory, Policy};
use std::alloc::Global;
use std::marker::Model;

/// Policies in order of issue, with room for 256. Contracts see it as their list.
#[derive(Drop)]
pub struct Batch {
    // It is there but in the middle of a turn.
    pub(crate) filled: Option<PolicyBatch>,
}

impl Model for Batch {
    ghost use Rattle.std.specs.Prelude.{List, []};
    ghost use Rattle.std.specs.Option.{IsSome, unwrap_or};
    ghost use Rattle.policy_types.specs.declared.policy.Policy.{Policy};

    ghost Value = { List Policy };

    ghost view = { λ b. unwrap_or b.filled [] };

    ghost invariant = { λ b. IsSome b.filled };
}

impl Batch {
    ghost use Rattle.std.specs.Prelude.{◌≡◌, [], IfOk, Some, None};
    ghost use Rattle.std.specs.Option.{unwrap_or};

    /// Takes the memory for 256 policies, and holds none yet.
    pub fn new(alloc: Global) -> Result<Batch, NoMemory>
        ensures { IfOk result (λ batch. batch ≡ []) }
    {
        let filled = PolicyBatch::new(alloc)?;
        Ok(Batch {
            filled: Some(filled),
        })
    }

    pub fn policies(&self) -> &[Policy]
        ensures { result.now ≡ self.now }
    {
        match &self.filled {
            Some(filled) => filled.policies(),
            None => unreachable!(),
        }
    }
}
