//! Present values of benefits and premiums at each policy year, as proved lower and upper bounds.
#![tactic(auto)]

mod column;
mod laws;
mod pair;
mod quotient;
mod reciprocal;
mod valuation;
mod worked;
mod year;

pub use column::{Column, Stream};
pub use laws::{
    mean_at_the_end_is_terminal, mean_lies_between_the_terminals, no_premium_enters_a_paid_up_mean,
};
pub use pair::{Columns, Pair, UNITS_IN_ONE, Values};
pub use quotient::{quotient_down, quotient_up};
pub use valuation::columns;
pub use worked::{mean_reserves_by_hand, net_premiums_by_hand, paid_up_means_by_hand};
