//! A generated script: its text, or its run over a disk followed by a valuation.
#![tactic(auto)]

mod generating;
mod laws;
mod loading;
mod worked;

pub use generating::generate;
pub use laws::generated_text_reads;
pub use loading::load;
pub use worked::loads_by_hand;
