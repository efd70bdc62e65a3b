//! Writers of lines of text: a line is a first field, and further fields after commas.
#![tactic(auto)]

mod bytes;
mod line_end;
mod words;
mod writer;

pub use bytes::{Text, add};
pub use line_end::LineEnd;
pub use words::{kind_word, plan_word, status_word};
pub use writer::LineWriter;
