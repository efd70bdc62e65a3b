//! Values by key, each with its past: what a key's value was at any position that is still kept.
#![tactic(auto)]

mod book;
mod chain;
mod halving;
mod hashing;
mod past;
mod place;

pub use book::VersionedBook;
pub use chain::Chain;
pub use hashing::{KeyHasher, KeyHashing};
pub use past::{Past, Pasts};
pub use place::KeyPlace;
