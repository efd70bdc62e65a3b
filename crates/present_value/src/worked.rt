//! Net premiums and mean reserves worked by hand.

ghost use Rattle.present_value.specs.Worked.{NetPremiums, MeanReserves, PaidUpMeans};

/// The net premiums of an endowment, and of a policy whose premiums end.
pub fn net_premiums_by_hand()
    ensures { NetPremiums }
{}

/// The mean reserves of policies in force.
pub fn mean_reserves_by_hand()
    ensures { MeanReserves }
{}

/// The mean reserves of a paid-up policy.
pub fn paid_up_means_by_hand()
    ensures { PaidUpMeans }
{}
