// The commands that make a contract of insurance or change it: an issue, and an alteration.
ghost use Rattle.std.specs.Prelude.{◌≡◌, Some};
ghost use Rattle.policy_types.specs.declared.command.Command.TheVariants.{Alter};
ghost use Rattle.policy_machine.specs.Rules.{IsSound, issued, next};

use crate::checks::{in_force, not_before_last, within_grace, within_term};
use policy_types::{Plan, Policy, Refusal, Status};

// A policy in force, with nothing paid.
pub fn issue(id: u32, day: i32, plan: Plan, age: u8, years: u8, amount: u64, premium: u64) -> Policy
    ensures { result ≡ issued id day plan age years amount premium }
{
    Policy {
        id,
        plan,
        age,
        years,
        amount,
        premium,
        issued: day,
        last: day,
        paid: 0,
        status: Status::InForce,
        outstanding: 0,
    }
}

pub fn alter(policy: Policy, day: i32, amount: u64, premium: u64) -> Result<Policy, Refusal>
    requires { IsSound policy }
    ensures { result ≡ next (Some policy) (Alter policy.id day amount premium) }
{
    not_before_last(policy, day)?;
    in_force(policy)?;
    within_term(policy, day)?;
    within_grace(policy, day)?;
    if policy.amount <= amount {
        return Err(Refusal::NotAReduction(policy.amount));
    }
    Ok(Policy {
        last: day,
        amount,
        premium,
        ..policy
    })
}
