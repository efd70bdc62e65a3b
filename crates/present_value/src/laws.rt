//! Laws of the mean reserve, over the definitions alone.

ghost use Rattle.present_value.specs.MeanLaws.{LiesBetweenLaw, TerminalAtTheEndLaw, NoPremiumLaw};

/// The mean reserve lies between the terminal reserves around it, each with half of the net premium added.
pub fn mean_lies_between_the_terminals()
    ensures { LiesBetweenLaw }
{}

/// At the end of cover the mean reserve is the terminal reserve.
pub fn mean_at_the_end_is_terminal()
    ensures { TerminalAtTheEndLaw }
{}

/// No premium enters the mean reserve of a paid-up policy.
pub fn no_premium_enters_a_paid_up_mean()
    ensures { NoPremiumLaw }
{}
