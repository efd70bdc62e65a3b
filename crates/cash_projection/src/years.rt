use policy_types::Listed;
use present_value::Pair;

/// What is expected to be paid in one policy year, in cents, each as a lower and an upper bound.
#[derive(Clone, Copy, PartialEq, Eq, Debug)]
pub struct Year {
    /// Premiums, at the start of the year.
    pub premium: Pair,
    /// Amounts paid for those who die in the year, at its end.
    pub death: Pair,
    /// Amounts paid to those who survive the last year of their cover, at its end.
    pub maturity: Pair,
}

/// The years of a projection, from the current one on.
pub type Years = Listed<Year>;
