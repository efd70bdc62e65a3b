//! Worked cases of upgrades and of policies that are made paid up.

ghost use Rattle.policy_machine.specs.Worked.PaidUps.{ClaimedPaidUp, ExpiredPaidUp, MadePaidUp, MaturedPaidUp, NoPremiumsFromThere, PaidUpBeforeLast, PaidUpClaimBooked, PaidUpGraceOver, PaidUpNotAReduction, PaidUpNothingDue, PaidUpOnce, PaidUpTermOver, PaidUpUnknown, PaidUpWrongStatus, UpgradePlaces};

/// A policy is made paid up once the journal is upgraded, and a journal is upgraded once.
pub fn paid_up_once()
    ensures turns { PaidUpOnce }
    ensures places { UpgradePlaces }
{}

/// The reasons to refuse that a policy is made paid up, in their order.
pub fn paid_up_refusals()
    ensures unknown { PaidUpUnknown }
    ensures before_last { PaidUpBeforeLast }
    ensures wrong_status { PaidUpWrongStatus }
    ensures term_over { PaidUpTermOver }
    ensures nothing_due { PaidUpNothingDue }
    ensures grace_over { PaidUpGraceOver }
    ensures not_a_reduction { PaidUpNotAReduction }
{}

/// What it changes, and what it ends.
pub fn made_paid_up()
    ensures changes { MadePaidUp }
    ensures premiums { NoPremiumsFromThere }
{}

/// What falls due on a paid-up policy.
pub fn paid_up_benefits()
    ensures claimed { ClaimedPaidUp }
    ensures booked { PaidUpClaimBooked }
    ensures matured { MaturedPaidUp }
    ensures expired { ExpiredPaidUp }
{}
