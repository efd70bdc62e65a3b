//! Worked balances.

ghost use Rattle.policy_machine.specs.Worked.Balances.{ClaimAndSettleBooked, ExpiryBooked, LapseBooked, MaturityBooked, ReducedClaimBooked, ReinstatementBooked, TwoPoliciesBooked};

/// A death and what is paid out for it, with the amount of the policy at the time.
pub fn claims_booked()
    ensures settled { ClaimAndSettleBooked }
    ensures reduced { ReducedClaimBooked }
    ensures each { TwoPoliciesBooked }
{}

/// A lapse and a reinstatement.
pub fn lapses_booked()
    ensures lapsed { LapseBooked }
    ensures reinstated { ReinstatementBooked }
{}

/// The end of a term, with a benefit and without.
pub fn maturities_booked()
    ensures matured { MaturityBooked }
    ensures expired { ExpiryBooked }
{}
