//! Worked cases of the end of a term.

ghost use Rattle.policy_machine.specs.Worked.Maturities.{ExpiredAtTerm, MatureBeforeLast, MatureGraceOver, MatureNotMatured, MatureUnknown, MatureWrongStatus, MaturedAndSettled, MaturedAtTerm, WholeLifeMatured};

/// The reasons to refuse that a term has ended, in their order.
pub fn mature_refusals()
    ensures unknown { MatureUnknown }
    ensures before_last { MatureBeforeLast }
    ensures wrong_status { MatureWrongStatus }
    ensures grace_over { MatureGraceOver }
    ensures not_matured { MatureNotMatured }
{}

/// What the end of a term changes, by the plan.
pub fn matured()
    ensures matured { MaturedAtTerm }
    ensures settled { MaturedAndSettled }
    ensures whole { WholeLifeMatured }
    ensures expired { ExpiredAtTerm }
{}
