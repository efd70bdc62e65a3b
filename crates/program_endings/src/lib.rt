//! How a mode of the program ends: its ending and exit status, what it wrote, and the lines of those that have no office,
//! no basis or no memory.
#![tactic(auto)]

mod ending;
mod finished;
mod refusing;
mod saying;
mod worked;

pub use ending::Ending;
pub use finished::Finished;
pub use refusing::{refuse_basis, refuse_journal};
pub use saying::{end, lack_memory, say, write_parts, write_text};
pub use worked::{
    a_file_that_is_no_journal, a_legal_history, ends_without_a_basis, lines_that_were_written,
    replies_of_a_few_turns, statuses_of_endings,
};
