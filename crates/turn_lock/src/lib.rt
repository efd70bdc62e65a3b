//! A lock around a value that stands for a history of turns. Each turn adds one entry to the history. Each caller's
//! pass knows, in contracts alone, which entries it has seen and which it has made.
#![tactic(auto)]

mod entering;
mod pass;
mod plays;
mod queues;
mod seats;
mod stands;
mod steps;
mod turn;
mod turnstile;

pub use pass::Pass;
pub use stands::Stands;
pub use turn::{Turn, Turned};
pub use turnstile::{NoRoom, Turnstile};
