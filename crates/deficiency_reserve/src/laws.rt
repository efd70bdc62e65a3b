//! Laws of the minimum reserve, proved from its definition alone: a function that does nothing, whose contract states
//! the laws.

ghost use Rattle.deficiency_reserve.specs.MinimumLaws.{EqualWhereEnoughLaw, FallsAsPremiumRisesLaw, LevelDuesLaw, NeverBelowOrdinaryLaw, PremiumsPaidLaw};

/// How the minimum reserve compares with the ordinary reserve, with the premium and with the benefits.
pub fn minimum_laws()
    ensures level { LevelDuesLaw }
    ensures floor { NeverBelowOrdinaryLaw }
    ensures enough { EqualWhereEnoughLaw }
    ensures falls { FallsAsPremiumRisesLaw }
    ensures paid { PremiumsPaidLaw }
{}
