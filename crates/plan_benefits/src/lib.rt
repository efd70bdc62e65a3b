//! The benefits of a plan, as a shape by policy year.
#![tactic(auto)]

mod fault;
mod shaping;

pub use fault::NotValued;
pub use shaping::{shape, shape_along, shapes_by_age_alone};
