//! What policies are expected to pay and to be paid in each year from the current one, without interest and lapses.
#![tactic(auto)]

mod column;
mod laws;
mod path;
mod paths;
mod pinned;
mod portions;
mod printing;
mod projecting;
mod projector;
mod sharing;
mod tallier;
mod tally;
mod worked;
mod years;

pub use laws::{benefits_add_up_to_the_amount, pairs_enclose_the_expected, survivors_never_rise};
pub use paths::Paths;
pub use pinned::project;
pub use printing::{Projection, print_projection};
pub use projecting::tally_policies;
pub use tally::Tally;
pub use worked::{endowment_by_hand, later_years_by_hand, paid_premium_by_hand, policies_by_hand};
pub use years::{Year, Years};
