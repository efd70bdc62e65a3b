//! Worked bodies, each a theorem over the definitions alone.

ghost use Rattle.record_codec.specs.Worked.{FirstIssue, StrayByteSpellsNothing, SpelledPremium, SpelledAlteration, LapsedEarly, ReinstatedAtMost, Claimed, SpelledPartSettlement, MaturedOnTheLastDay, SpelledPaidUp, SpelledUpgrade};

/// The body of the first issue, with its plan, age and years.
pub fn first_issue()
    ensures { FirstIssue }
{}

/// A payment stands where an issue has its amount.
pub fn payments()
    ensures premium { SpelledPremium }
    ensures reinstatement { ReinstatedAtMost }
    ensures settlement { SpelledPartSettlement }
    ensures paid_up { SpelledPaidUp }
{}

/// An alteration has an amount and a premium, and neither plan nor age nor years.
pub fn altered()
    ensures { SpelledAlteration }
{}

/// The other kinds have a day alone, in two's complement.
pub fn days_alone()
    ensures lapse { LapsedEarly }
    ensures claim { Claimed }
    ensures maturity { MaturedOnTheLastDay }
{}

/// An upgrade has its kind alone.
pub fn upgrade()
    ensures { SpelledUpgrade }
{}

/// A body with a byte too much spells no command.
pub fn stray_byte()
    ensures { StrayByteSpellsNothing }
{}
