//! Laws of the expected totals, over the definitions alone.

ghost use Rattle.cash_projection.specs.Laws.{AddUpLaw, EnclosureLaw, NeverRiseLaw};

/// The expected survivors never rise.
pub fn survivors_never_rise()
    ensures { NeverRiseLaw }
{}

/// Over all years to the end of cover, the expected deaths and maturity of a policy that matures add up to its
/// amount.
pub fn benefits_add_up_to_the_amount()
    ensures { AddUpLaw }
{}

/// The rounded pairs of policies within the limits of the office enclose the expected totals.
pub fn pairs_enclose_the_expected()
    ensures { EnclosureLaw }
{}
