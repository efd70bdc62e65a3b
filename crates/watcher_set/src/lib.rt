//! The watchers of the postings: each notes the accepted commands until it is done, and its report is kept.
#![tactic(auto)]

mod counting;
mod empty;
mod evidence;
mod heard;
mod laws;
mod place;
mod premiums;
mod reports;
mod rounds;
mod tight;
mod watchers;
mod watching;
mod worked;

pub use counting::CountWatcher;
pub use empty::NoWatchers;
pub use evidence::Lack;
pub use laws::noted_to_the_first_end;
pub use premiums::PremiumWatcher;
pub use reports::{MOST_WATCHERS, Reports};
pub use tight::TightWatcher;
pub use watchers::Watchers;
pub use watching::Watching;
pub use worked::auditors_of_four_commands;
