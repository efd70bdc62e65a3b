//! The laws of the office's histories, each over all lists of turns: a function that does nothing, whose contract is
//! the law.
#![tactic(auto)]

pub mod balances;
pub mod growth;
pub mod pinned_reads;
pub mod prefixes;
pub mod replies;
