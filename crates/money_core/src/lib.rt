//! Amounts of cents and whole numbers as text, and back. No call asks for memory.
#![tactic(auto)]

mod cents;
mod number;

pub use cents::{parse_cents, print_cents};
pub use number::parse_number;
