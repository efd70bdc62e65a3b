//! The text of a run: the line of each answer, the blocks of its valuations, and the watchers' reports; and how the
//! answers decide how the run ends.
#![tactic(auto)]

mod lines;
mod reporting;
mod told;

pub use lines::ScriptWords;
pub use reporting::report_lines;
pub use told::ending_of;
