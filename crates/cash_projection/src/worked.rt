//! Projections worked by hand.

ghost use Rattle.cash_projection.specs.Worked.{EndowmentCash, LaterCash, PaidPremiumCash, TogetherCash};

/// The projection of an endowment from its issue on.
pub fn endowment_by_hand()
    ensures { EndowmentCash }
{}

/// The projection of an endowment whose first premium is paid.
pub fn paid_premium_by_hand()
    ensures { PaidPremiumCash }
{}

/// The projection of an endowment a year later, and at its end.
pub fn later_years_by_hand()
    ensures { LaterCash }
{}

/// The projection of several policies, with totals that aren't whole cents.
pub fn policies_by_hand()
    ensures { TogetherCash }
{}
