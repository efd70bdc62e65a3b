// What the plan and the days of a policy decide.
ghost use Rattle.std.specs.Prelude.{◌≡◌, ◌≤◌, ◌+◌, ◌≤ℤ◌};
ghost use Rattle.life_dates.specs.Calendar.{IsTermDay};
ghost use Rattle.policy_types.specs.Valid.{IsIssueAge};
ghost use Rattle.policy_machine.specs.Rules.{IsSound, years_of, payments_of, end_of, has_due as is_due, due_of, premiums_missed, reinstatement_end_of};

use life_dates::{anniversary, completed};
use policy_types::{END_AGE, Plan, Policy, Status};

// The number of years of insurance.
fn years(policy: Policy) -> u8
    requires { IsSound policy }
    ensures value { result ≡ years_of policy }
    ensures bound { result ≤ 131 }
{
    match policy.plan {
        Plan::Term | Plan::Endowment => policy.years,
        Plan::Whole | Plan::Limited => END_AGE as u8 - policy.age,
    }
}

// The number of annual premiums.
pub fn payments(policy: Policy) -> u8
    requires { IsIssueAge policy.age }
    ensures value { result ≡ payments_of policy }
    ensures bound { IsSound policy → result ≤ 131 }
{
    match policy.plan {
        Plan::Term | Plan::Endowment | Plan::Limited => policy.years,
        Plan::Whole => END_AGE as u8 - policy.age,
    }
}

// The day on which the insurance ends.
pub fn end(policy: Policy) -> i32
    requires { IsSound policy }
    ensures value { result ≡ end_of policy }
    ensures range { IsTermDay result }
{
    anniversary(policy.issued, years(policy))
}

// Whether a further premium falls due.
pub fn has_due(policy: Policy) -> bool
    requires { IsSound policy }
    ensures { result ≡ is_due policy }
{
    policy.status != Status::PaidUp && policy.paid < payments(policy)
}

// The day on which the next premium falls due, while one does.
pub fn due(policy: Policy) -> i32
    requires { IsSound policy }
    ensures value { result ≡ due_of policy }
    ensures range { IsTermDay result }
{
    anniversary(policy.issued, policy.paid)
}

// The last day on which the policy can be reinstated once it has lapsed, where its term isn't over before.
pub fn reinstatement_end(policy: Policy) -> i32
    requires { IsSound policy }
    ensures { result ≡ reinstatement_end_of policy }
{
    anniversary(policy.issued, policy.paid + 3)
}

// The number of unpaid premiums that have fallen due by a day.
pub fn missed(policy: Policy, day: i32) -> u8
    requires sound { IsSound policy }
    requires not_before { policy.issued ≤ℤ day }
    ensures value { result ≡ premiums_missed policy day }
    ensures bound { policy.paid + result ≤ 131 }
{
    let come = completed(policy.issued, day) + 1;
    come.min(payments(policy)).saturating_sub(policy.paid)
}
