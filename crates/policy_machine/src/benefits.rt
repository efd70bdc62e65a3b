// The commands about benefits: a benefit falls due at a death or at the end of the term, and is then paid out.
ghost use Rattle.std.specs.Prelude.{◌≡◌, Some};
ghost use Rattle.policy_types.specs.declared.command.Command.TheVariants.{Claim, Settle, Mature};
ghost use Rattle.policy_machine.specs.Rules.{IsSound, matured, next};

use crate::checks::{insured, not_before_last, within_grace, within_term};
use crate::terms::end;
use policy_types::{Plan, Policy, Refusal, Status};

pub fn claim(policy: Policy, day: i32) -> Result<Policy, Refusal>
    requires { IsSound policy }
    ensures { result ≡ next (Some policy) (Claim policy.id day) }
{
    not_before_last(policy, day)?;
    insured(policy)?;
    within_term(policy, day)?;
    within_grace(policy, day)?;
    Ok(Policy {
        last: day,
        status: Status::Claimed,
        outstanding: policy.amount,
        ..policy
    })
}

pub fn settle(policy: Policy, day: i32, amount: u64) -> Result<Policy, Refusal>
    ensures { result ≡ next (Some policy) (Settle policy.id day amount) }
{
    not_before_last(policy, day)?;
    if policy.status != Status::Claimed && policy.status != Status::Matured {
        return Err(Refusal::WrongStatus(policy.status));
    }
    if policy.outstanding < amount {
        return Err(Refusal::OverSettled(policy.outstanding));
    }
    let status = if amount == policy.outstanding {
        Status::Settled
    } else {
        policy.status
    };
    Ok(Policy {
        last: day,
        outstanding: policy.outstanding - amount,
        status,
        ..policy
    })
}

pub fn mature(policy: Policy, day: i32) -> Result<Policy, Refusal>
    requires { IsSound policy }
    ensures { result ≡ next (Some policy) (Mature policy.id day) }
{
    not_before_last(policy, day)?;
    insured(policy)?;
    within_grace(policy, day)?;
    let end = end(policy);
    if day < end {
        return Err(Refusal::NotMatured(end));
    }
    Ok(at_end(Policy {
        last: day,
        ..policy
    }))
}

// The policy when its term is over, by its plan.
fn at_end(policy: Policy) -> Policy
    ensures { result ≡ matured policy.plan policy }
{
    let (status, outstanding) = match policy.plan {
        Plan::Term => (Status::Expired, 0),
        Plan::Whole | Plan::Endowment | Plan::Limited => (Status::Matured, policy.amount),
    };
    Policy {
        status,
        outstanding,
        ..policy
    }
}
