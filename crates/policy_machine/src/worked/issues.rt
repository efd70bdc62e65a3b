//! Worked cases of issues.

ghost use Rattle.policy_machine.specs.Worked.Issues.{FourPlans, IssuedTwice, TakenForGood};

/// A first issue is accepted; the number of the same issue is then taken.
pub fn issued_twice()
    ensures { IssuedTwice }
{}

/// A policy's number is never free again.
pub fn issue_refusals()
    ensures taken { TakenForGood }
{}

/// What an issue of each plan puts on the books.
pub fn four_plans()
    ensures { FourPlans }
{}
