//! The run of a script: it is read from the input, its lanes are run at an office, and the transcript is written.
#![tactic(auto)]

mod intake;
mod refusing;
mod running;
mod worked;

pub use intake::Unread;
pub use running::run;
pub use worked::scripts_by_hand;
