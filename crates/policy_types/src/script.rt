use crate::command::Command;
use crate::entry::At;
use crate::listed::Listed;

/// One line of a lane.
#[derive(Clone, Copy, PartialEq, Eq, Debug)]
pub enum Line {
    Post(Command),
    /// A valuation on the day `on`, in days since 1970-01-01.
    Value { on: i32, at: At, workers: u8 },
    Trim,
}

/// Lines in order.
pub type Lines = Listed<Line>;

/// A lane of a script: its number, from 1 to 8, and its lines.
#[derive(Drop)]
pub struct Lane {
    pub number: u8,
    pub lines: Lines,
}

/// The lanes of a script, with rising numbers.
pub type Script = Listed<Lane>;
