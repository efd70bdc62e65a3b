// The checks that several commands share.
ghost use Rattle.policy_machine.specs.Rules.{IsSound, day_before_last, not_in_force, not_insured, term_over, grace_over, nothing_due};
ghost use Rattle.policy_machine.specs.inside.Passing.{IsAnswerOf};

use crate::terms::{due, end, has_due, payments};
use policy_types::{Policy, Refusal, Status};

pub const DAYS_OF_GRACE: i32 = 31;

pub fn not_before_last(policy: Policy, day: i32) -> Result<(), Refusal>
    ensures { IsAnswerOf (day_before_last policy day) result }
{
    if day < policy.last {
        return Err(Refusal::BeforeLast(policy.last));
    }
    Ok(())
}

pub fn in_force(policy: Policy) -> Result<(), Refusal>
    ensures { IsAnswerOf (not_in_force policy) result }
{
    if policy.status != Status::InForce {
        return Err(Refusal::WrongStatus(policy.status));
    }
    Ok(())
}

pub fn insured(policy: Policy) -> Result<(), Refusal>
    ensures { IsAnswerOf (not_insured policy) result }
{
    if policy.status != Status::InForce && policy.status != Status::PaidUp {
        return Err(Refusal::WrongStatus(policy.status));
    }
    Ok(())
}

pub fn within_term(policy: Policy, day: i32) -> Result<(), Refusal>
    requires { IsSound policy }
    ensures { IsAnswerOf (term_over policy day) result }
{
    let end = end(policy);
    if end <= day {
        return Err(Refusal::TermOver(end));
    }
    Ok(())
}

pub fn something_due(policy: Policy) -> Result<(), Refusal>
    requires { IsSound policy }
    ensures { IsAnswerOf (nothing_due policy) result }
{
    if policy.paid == payments(policy) {
        return Err(Refusal::NothingDue);
    }
    Ok(())
}

pub fn within_grace(policy: Policy, day: i32) -> Result<(), Refusal>
    requires { IsSound policy }
    ensures { IsAnswerOf (grace_over policy day) result }
{
    let due = due(policy);
    if has_due(policy) && due + DAYS_OF_GRACE < day {
        return Err(Refusal::GraceOver(due));
    }
    Ok(())
}
