use crate::transcript_lines::TranscriptLines;
use office_state::Answer;
use policy_types::{Line, Listed, NoMemory, PinRefusal};
use snapshot_value::Valuation;

/// What is told of an answered line.
#[derive(Drop)]
pub enum Outcome {
    Posted(Answer),
    /// The position before which nothing is kept.
    Trimmed(u32),
    /// In a box, so that no other line has to have its room.
    Valued(Box<Valuation>),
    ValueRefused(PinRefusal),
    ValueNoMemory(NoMemory),
}

/// A line of a lane with its answer. Its turn is the place of its first turn in the history, from 0.
#[derive(Drop)]
pub struct TranscriptLine {
    pub lane: u8,
    pub turn: u64,
    pub line: Line,
    pub outcome: Outcome,
}

/// The callers of lanes, in the lanes' order.
pub type Callers = Listed<u64>;

/// The lanes' callers, and what is told of the lanes' lines.
#[derive(Drop)]
pub struct Transcript {
    pub callers: Callers,
    pub lines: TranscriptLines,
}
