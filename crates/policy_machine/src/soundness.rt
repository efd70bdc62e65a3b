// Whether a policy, as it is read from a file, is one that the rules can leave.
ghost use Rattle.std.specs.Prelude.{◌<◌, ◌≤◌, ◌↔◌, ◌≤ℤ◌, IsTrue};
ghost use Rattle.policy_types.specs.Valid.{IsCommandDay, IsIssue};
ghost use Rattle.policy_machine.specs.Rules.{IsSound, awaits_settlement};

use crate::terms::payments;
use policy_types::{Command, FIRST_DAY, LAST_DAY, Policy, Status};

/// Whether the fields of a policy agree with one another, as the rules leave them.
pub fn is_sound(policy: Policy) -> bool
    ensures { IsTrue result ↔ IsSound policy }
{
    is_issue(policy)
        && policy.paid <= payments(policy)
        && has_days_in_order(policy)
        && owes_what_awaits(policy)
}

// Whether an issue of the policy's fields would be valid.
fn is_issue(policy: Policy) -> bool
    ensures { IsTrue result ↔ IsIssue policy.id policy.issued policy.plan policy.age policy.years policy.amount policy.premium }
{
    let issue = Command::Issue {
        id: policy.id,
        day: policy.issued,
        plan: policy.plan,
        age: policy.age,
        years: policy.years,
        amount: policy.amount,
        premium: policy.premium,
    };
    issue.is_valid()
}

fn has_days_in_order(policy: Policy) -> bool
    ensures { IsTrue result ↔ ((policy.issued ≤ℤ policy.last) × IsCommandDay policy.last) }
{
    policy.issued <= policy.last && FIRST_DAY <= policy.last && policy.last <= LAST_DAY
}

// Whether something is outstanding exactly while a benefit awaits settlement, and no more than the amount.
fn owes_what_awaits(policy: Policy) -> bool
    ensures { IsTrue result ↔ ((policy.outstanding ≤ policy.amount)
        × ((0 < policy.outstanding) ↔ IsTrue (awaits_settlement policy.status))) }
{
    match policy.status {
        Status::Claimed | Status::Matured => {
            0 < policy.outstanding && policy.outstanding <= policy.amount
        }
        Status::InForce | Status::Lapsed | Status::Expired | Status::Settled | Status::PaidUp =>
            policy.outstanding == 0,
    }
}
