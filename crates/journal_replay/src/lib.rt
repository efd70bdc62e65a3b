//! The replay of a journal's records: each spells a command, and a keeper keeps the commands, one after the other.
#![tactic(auto)]

mod keeper;
mod replaying;

pub use keeper::{Keeper, Unkept};
pub use replaying::{ReplayFault, replay, replay_all};
