// The commands about premiums: one is paid, none is paid in time, and missed premiums are paid later.
ghost use Rattle.std.specs.Prelude.{◌≡◌, Some};
ghost use Rattle.policy_types.specs.declared.command.Command.TheVariants.{Premium, Lapse, Reinstate};
ghost use Rattle.policy_machine.specs.Rules.{IsSound, next};

use crate::checks::{
    DAYS_OF_GRACE, in_force, not_before_last, something_due, within_grace, within_term,
};
use crate::terms::{due, missed, reinstatement_end};
use policy_types::{Policy, Refusal, Status};

const DAYS_BEFORE_DUE: i32 = 90;

pub fn pay(policy: Policy, day: i32, amount: u64) -> Result<Policy, Refusal>
    requires { IsSound policy }
    ensures { result ≡ next (Some policy) (Premium policy.id day amount) }
{
    not_before_last(policy, day)?;
    in_force(policy)?;
    within_term(policy, day)?;
    something_due(policy)?;
    let due = due(policy);
    if day < due - DAYS_BEFORE_DUE {
        return Err(Refusal::TooEarly(due));
    }
    within_grace(policy, day)?;
    if amount != policy.premium {
        return Err(Refusal::WrongAmount(policy.premium));
    }
    Ok(Policy {
        last: day,
        paid: policy.paid + 1,
        ..policy
    })
}

pub fn lapse(policy: Policy, day: i32) -> Result<Policy, Refusal>
    requires { IsSound policy }
    ensures { result ≡ next (Some policy) (Lapse policy.id day) }
{
    not_before_last(policy, day)?;
    in_force(policy)?;
    something_due(policy)?;
    let due = due(policy);
    if day <= due + DAYS_OF_GRACE {
        return Err(Refusal::NotInArrears(due));
    }
    Ok(Policy {
        last: day,
        status: Status::Lapsed,
        ..policy
    })
}

pub fn reinstate(policy: Policy, day: i32, amount: u64) -> Result<Policy, Refusal>
    requires { IsSound policy }
    ensures { result ≡ next (Some policy) (Reinstate policy.id day amount) }
{
    not_before_last(policy, day)?;
    if policy.status != Status::Lapsed {
        return Err(Refusal::WrongStatus(policy.status));
    }
    within_term(policy, day)?;
    let limit = reinstatement_end(policy);
    if limit < day {
        return Err(Refusal::TooLate(limit));
    }
    let missed = missed(policy, day);
    let sum = missed as u64 * policy.premium;
    if amount != sum {
        return Err(Refusal::WrongAmount(sum));
    }
    Ok(Policy {
        last: day,
        paid: policy.paid + missed,
        status: Status::InForce,
        ..policy
    })
}
