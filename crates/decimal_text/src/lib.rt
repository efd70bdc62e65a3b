//! Rates written as decimal numbers, read exactly as whole numbers of 10^-9.
#![tactic(auto)]

mod digits;
mod exponent;
mod fault;
mod parts;
mod rate;
mod reader;
mod units;
mod worked;

pub use fault::RateFault;
pub use rate::{LONGEST_TEXT, read_rate};
pub use worked::rates_by_hand;
