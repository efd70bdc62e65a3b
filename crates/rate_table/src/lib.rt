//! A mortality table: rates of death by age, and the shape of the benefits that a policy pays by year.
#![tactic(auto)]

mod fault;
mod shape;
mod table;

pub use fault::RatesFault;
pub use shape::Shape;
pub use table::RateTable;
