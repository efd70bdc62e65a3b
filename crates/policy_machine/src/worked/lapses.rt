//! Worked cases of lapses and reinstatements.

ghost use Rattle.policy_machine.specs.Worked.Lapses.{LapseAndReinstate, LapseBeforeLast, LapseNotInArrears, LapseNothingDue, LapseUnknown, LapseWrongStatus, LapsedOnce, ReinstateBeforeLast, ReinstateTermOver, ReinstateTooLate, ReinstateUnknown, ReinstateWrongAmount, ReinstateWrongStatus, Reinstated, ReinstatedForPremiumsAlone};

/// A policy lapses after its days of grace, and is reinstated for the premiums that it missed.
pub fn lapse_and_reinstate()
    ensures { LapseAndReinstate }
{}

/// The reasons to refuse a lapse, in their order.
pub fn lapse_refusals()
    ensures unknown { LapseUnknown }
    ensures before_last { LapseBeforeLast }
    ensures wrong_status { LapseWrongStatus }
    ensures nothing_due { LapseNothingDue }
    ensures not_in_arrears { LapseNotInArrears }
{}

/// What a lapse changes.
pub fn lapsed()
    ensures { LapsedOnce }
{}

/// The reasons to refuse a reinstatement, in their order.
pub fn reinstate_refusals()
    ensures unknown { ReinstateUnknown }
    ensures before_last { ReinstateBeforeLast }
    ensures wrong_status { ReinstateWrongStatus }
    ensures term_over { ReinstateTermOver }
    ensures too_late { ReinstateTooLate }
    ensures wrong_amount { ReinstateWrongAmount }
{}

/// What a reinstatement changes, and that it is paid for with premiums alone.
pub fn reinstated()
    ensures changes { Reinstated }
    ensures premiums { ReinstatedForPremiumsAlone }
{}
