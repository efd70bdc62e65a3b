//! The minimum reserve if the premium that is charged is below the modified net premium, as proved bounds, and
//! whether the premium is below it.
#![tactic(auto)]

mod answer;
mod gross;
mod laws;
mod minimum;
mod worked;

pub use answer::Adequacy;
pub use gross::adequacy;
pub use laws::minimum_laws;
pub use minimum::{minimum_bounds, minimum_by};
pub use worked::{minimums_by_hand, premiums_by_hand};
