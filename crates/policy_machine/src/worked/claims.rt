//! Worked cases of claims and their settlement.

ghost use Rattle.policy_machine.specs.Worked.Claims.{ClaimAndSettle, ClaimBeforeLast, ClaimGraceOver, ClaimTermOver, ClaimUnknown, ClaimWrongStatus, ClaimedOnce, SettleBeforeLast, SettleOverSettled, SettleUnknown, SettleWrongStatus, SettledInFull, SettledInPart};

/// A claim is settled in parts, up to what is outstanding.
pub fn claim_and_settle()
    ensures { ClaimAndSettle }
{}

/// The reasons to refuse a claim, in their order.
pub fn claim_refusals()
    ensures unknown { ClaimUnknown }
    ensures before_last { ClaimBeforeLast }
    ensures wrong_status { ClaimWrongStatus }
    ensures term_over { ClaimTermOver }
    ensures grace_over { ClaimGraceOver }
{}

/// What a claim changes.
pub fn claimed()
    ensures { ClaimedOnce }
{}

/// The reasons to refuse a settlement, in their order.
pub fn settle_refusals()
    ensures unknown { SettleUnknown }
    ensures before_last { SettleBeforeLast }
    ensures wrong_status { SettleWrongStatus }
    ensures over_settled { SettleOverSettled }
{}

/// What a settlement changes.
pub fn settled()
    ensures in_part { SettledInPart }
    ensures in_full { SettledInFull }
{}
