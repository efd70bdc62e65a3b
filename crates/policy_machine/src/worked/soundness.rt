//! Worked cases of what holds of every policy of the books.

ghost use Rattle.policy_machine.specs.Worked.Soundness.{NoFourthPremium, NoLastBeforeIssue, NoMoreThanTheAmount, NothingOutstandingInForce, NothingOutstandingWhenSettled, OutstandingWhenMatured, SoundPolicies};

/// Which policies are sound.
pub fn sound_policies()
    ensures sound { SoundPolicies }
    ensures paid { NoFourthPremium }
    ensures last { NoLastBeforeIssue }
    ensures amount { NoMoreThanTheAmount }
    ensures in_force { NothingOutstandingInForce }
    ensures settled { NothingOutstandingWhenSettled }
    ensures matured { OutstandingWhenMatured }
{}
