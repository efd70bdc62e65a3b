//! The reader of scripts: the rows of a script, and the lines that they spell.
#![tactic(auto)]

mod fault;
mod fields;
mod kind;
mod laws;
mod postings;
mod reader;
mod row;
mod worked;

pub use fault::ScriptFault;
pub use laws::{faults_are_exact, lanes_are_whole, readings_are_one, scripts_are_judged};
pub use reader::read_script;
pub use worked::{faults_are_placed, lanes_are_dealt, lines_are_written, odd_scripts_are_read};
