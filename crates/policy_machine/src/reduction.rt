// The command that makes a policy paid up: it goes on for a lower amount, without premiums.
ghost use Rattle.std.specs.Prelude.{◌≡◌, Some};
ghost use Rattle.policy_types.specs.declared.command.Command.TheVariants.{PaidUp};
ghost use Rattle.policy_machine.specs.Rules.{IsSound, next};

use crate::checks::{in_force, not_before_last, something_due, within_grace, within_term};
use policy_types::{Policy, Refusal, Status};

pub fn paid_up(policy: Policy, day: i32, amount: u64) -> Result<Policy, Refusal>
    requires { IsSound policy }
    ensures { result ≡ next (Some policy) (PaidUp policy.id day amount) }
{
    not_before_last(policy, day)?;
    in_force(policy)?;
    within_term(policy, day)?;
    something_due(policy)?;
    within_grace(policy, day)?;
    if policy.amount <= amount {
        return Err(Refusal::NotAReduction(policy.amount));
    }
    Ok(Policy {
        last: day,
        status: Status::PaidUp,
        amount,
        ..policy
    })
}
