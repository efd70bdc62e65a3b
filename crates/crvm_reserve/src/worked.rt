//! Mean reserves in cents, worked by hand.

ghost use Rattle.crvm_reserve.specs.Worked.{MeanRows, PaidUpMeanRows};

/// The mean reserves of an endowment in force.
pub fn mean_rows_by_hand()
    ensures { MeanRows }
{}

/// The mean reserves of a paid-up term.
pub fn paid_up_mean_rows_by_hand()
    ensures { PaidUpMeanRows }
{}
