//! Worked cases of the minimum reserve, each a theorem over the definitions alone.

ghost use Rattle.deficiency_reserve.specs.WorkedMinimums.{EnoughAfterAYear, MinimumsOncePaid, PremiumsAroundOneHalf, PremiumsAroundTheNetPremium, ShortAfterAYear};

/// One endowment: a premium that is short and one that is enough, and years without a premium.
pub fn minimums_by_hand()
    ensures short { ShortAfterAYear }
    ensures enough { EnoughAfterAYear }
    ensures paid { MinimumsOncePaid }
{}

/// The net premium to the cent, one below and one above.
pub fn premiums_by_hand()
    ensures open { PremiumsAroundTheNetPremium }
    ensures exact { PremiumsAroundOneHalf }
{}
