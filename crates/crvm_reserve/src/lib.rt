//! The modified net premium of the Commissioners Reserve Valuation Method, and the reserve that is computed from it,
//! as proved lower and upper bounds.
#![tactic(auto)]

mod basis;
mod bounds;
mod cap;
mod mean;
mod paid_up;
mod paid_up_mean;
mod premium;
mod share;
mod worked;

pub use basis::{basis_premium, premium_with_cap};
pub use bounds::{bounds_by, bounds_by_unit, reserve_bounds, unit_reserve};
pub use cap::shape_of_cap;
pub use mean::{MeanParts, mean_bounds, mean_by};
pub use paid_up::{paid_up_bounds, paid_up_by};
pub use paid_up_mean::{paid_up_mean_bounds, paid_up_mean_by};
pub use premium::{Premium, PremiumParts, premium_by};
pub use worked::{mean_rows_by_hand, paid_up_mean_rows_by_hand};
