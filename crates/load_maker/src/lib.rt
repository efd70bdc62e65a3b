//! Scripts made by a generator: a given number of policies, each issued and its first premium paid on the day of
//! issue.
#![tactic(auto)]

mod generator;
mod lanes;
mod rows;
mod script;
mod worked;

pub use generator::{Drawn, Generator};
pub use lanes::make_lanes;
pub use script::make_script;
pub use worked::seed_of_1;
