//! The beginning of each mode that has an office: the basis that it asks for, and the office over the disk; and what
//! an office shows if only one caller takes turns.
#![tactic(auto)]

mod beginning;

pub use beginning::{Begun, begin};
