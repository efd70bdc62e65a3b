//! What the program is asked to do: the arguments of its command line.
#![tactic(auto)]

mod fault;
mod laws;
mod line;
mod mode;
mod modes;
mod reading;
mod values;
mod verb;
mod worked;

pub use fault::WordsFault;
pub use laws::{words_ask_once, words_ask_or_not};
pub use mode::Mode;
pub use reading::read_words;
pub use worked::words_by_hand;
