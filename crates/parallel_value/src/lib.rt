//! The values of a list's items, computed by several workers at the same time, in the order of the items.
#![tactic(auto)]

mod filling;
mod mapping;
mod piece;
mod share;
mod sharing;

pub use filling::map_into;
pub use piece::Piece;
pub use sharing::{map_in, map_onto};
