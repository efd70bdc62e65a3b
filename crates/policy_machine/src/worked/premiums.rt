//! Worked cases of premiums.

ghost use Rattle.policy_machine.specs.Worked.Premiums.{Grace, LeapDay, LimitedPremiums, PremiumBeforeLast, PremiumGraceOver, PremiumNothingDue, PremiumPaid, PremiumRefused, PremiumTermOver, PremiumTooEarly, PremiumUnknown, PremiumWrongAmount, PremiumWrongStatus, WholeLifePremiums};

/// The reasons to refuse a premium, in their order.
pub fn premium_refusals()
    ensures unknown { PremiumUnknown }
    ensures before_last { PremiumBeforeLast }
    ensures wrong_status { PremiumWrongStatus }
    ensures term_over { PremiumTermOver }
    ensures nothing_due { PremiumNothingDue }
    ensures too_early { PremiumTooEarly }
    ensures grace_over { PremiumGraceOver }
    ensures wrong_amount { PremiumWrongAmount }
{}

/// What a premium changes, and that a refused one changes nothing.
pub fn premium_paid()
    ensures paid { PremiumPaid }
    ensures refused { PremiumRefused }
{}

/// A premium may be paid on the 31st day after it fell due, and not on the 32nd.
pub fn grace()
    ensures { Grace }
{}

/// The anniversary of 29 February is the 28th in a common year, and a premium may be paid 90 days before it.
pub fn leap_day()
    ensures { LeapDay }
{}

/// How many premiums whole life and limited life have, and when their terms end.
pub fn premiums_for_life()
    ensures whole { WholeLifePremiums }
    ensures limited { LimitedPremiums }
{}
