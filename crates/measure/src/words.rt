// The arguments of the command line, and how a measuring ends.
ghost use Rattle.std.specs.Prelude.{◌≤◌, IfSome};

use crate::lane::MOST_CALLERS;
use std::env::Args;

/// How a measuring ended.
#[derive(Clone, Copy)]
pub enum Outcome {
    Measured,
    OtherWords,
    NoJournal,
    NoMemory,
}

impl Outcome {
    /// The exit status.
    pub fn status(self) -> u8 {
        match self {
            Outcome::Measured => 0,
            Outcome::OtherWords => 2,
            Outcome::NoJournal => 8,
            Outcome::NoMemory => 9,
        }
    }
}

/// The next word as a number.
pub fn number_in(words: &mut Args) -> Option<u32> {
    words
        .next()
        .and_then(|word| word.as_str().parse::<u32>().ok())
}

/// The next word as a number of callers.
pub fn callers_in(words: &mut Args) -> Option<u32>
    ensures { IfSome result (λ callers. (1 ≤ callers) × (callers ≤ MOST_CALLERS)) }
{
    let callers = number_in(words)?;
    if callers >= 1 && callers <= MOST_CALLERS {
        Some(callers)
    } else {
        None
    }
}
