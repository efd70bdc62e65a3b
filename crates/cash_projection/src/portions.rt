// The portions of a list of policies, which workers take in turn.
ghost use Rattle.std.specs.Prelude.{◌≡◌, IfOk};
ghost use Rattle.cash_projection.specs.inside.Portions.{policies_of_portions};

use memory_requests::push;
use policy_types::{NoMemory, Policy};
use std::alloc::Global;

/// The policies of a portion: few enough that the last portions take little time, and enough that there are few
/// tallies.
pub const POLICIES_IN_PORTION: usize = 4_096;

/// Consecutive policies of a list.
#[derive(Clone, Copy)]
pub struct Portion<'a> {
    pub policies: &'a [Policy],
}

/// Portions of equal length, except that the last may be shorter, which together are the policies in their order.
pub fn portions_of<'a>(alloc: Global, policies: &'a [Policy]) -> Result<Vec<Portion<'a>>, NoMemory>
    ensures { IfOk result (λ portions. policies_of_portions portions.items ≡ policies.now) }
{
    let mut portions = Vec::new(alloc);
    let mut rest = policies;
    while rest.len() > 0 {
        let (front, back) = rest.split_at(POLICIES_IN_PORTION.min(rest.len()));
        push(&mut portions, Portion { policies: front })?;
        rest = back;
    }
    Ok(portions)
}
