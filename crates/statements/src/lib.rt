//! What an administrator reads: the entries of a policy, the policy as they left it, and the balances.
#![tactic(auto)]

mod balances;
mod entries;
mod last_day;
mod policies;

pub use balances::balance;
pub use entries::print_entry;
pub use policies::{PolicyLines, statement};
