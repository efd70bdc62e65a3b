//! The shared language of the back office: commands, policies, refusals, turns of the history, script lines and
//! the trait of the watchers.
#![tactic(auto)]

mod boxed;
mod command;
mod entry;
mod listed;
mod policy;
mod refusal;
mod script;
mod watcher;

pub use command::{
    Command, END_AGE, FIRST_DAY, LAST_DAY, LAST_ISSUE_AGE, MOST_CENTS, MOST_COMMANDS,
    MOST_REINSTATEMENT_CENTS, Plan, are_years,
};
pub use entry::{At, Call, Entry, PinRefusal, Reply, Slice};
pub use listed::Listed;
pub use memory_requests::NoMemory;
pub use policy::{Policy, Status};
pub use refusal::Refusal;
pub use script::{Lane, Line, Lines, Script};
pub use watcher::{Attention, NotReady, Report, Watcher};
