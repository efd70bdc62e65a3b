//! The body of a journal's record: a command as 64 bytes, and the command that 64 bytes spell.
#![tactic(auto)]

mod body;
mod codec;
mod fields;
mod numbers;
pub mod worked;

pub use codec::{decode, encode, spells_one_command};
pub use fields::{byte_of_plan, plan_in_byte};
pub use numbers::{eight_at, four_at};
