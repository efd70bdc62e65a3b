//! The text of a valuation: a line that says what was valued, a row for each policy, and the total.
#![tactic(auto)]

mod block;
mod parts;
mod printer;
mod rows;
mod sharing;
mod totals;
mod worked;

pub use block::print_block;
pub use parts::TextParts;
pub use rows::print_row;
pub use sharing::print_parts;
pub use totals::{Totals, print_total};
pub use worked::worked_valuations;
