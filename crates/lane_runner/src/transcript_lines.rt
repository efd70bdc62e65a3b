// Answered lines are tallied, and not kept.
ghost use Rattle.std.specs.Prelude.{◌≡◌, ◌<◌, ◌^◌, ◌||◌, [], ◌∷◌, ◌++◌, length, is_some};
ghost use Rattle.lane_runner.specs.Tallies.{accepted_lines, any_faulted, any_lacked, has_faulted, lacks_memory, refused_lines, tells_accepted, tells_refused};

use crate::transcript::{Outcome, TranscriptLine};
use office_state::Answer;
use std::marker::Model;
use std::mem;
use std::snapshot::Snapshot;
use watcher_set::Lack;

// The lines that were added, from the last one back to the first.
#[derive(Drop)]
enum Added {
    Nothing,
    Of {
        earlier: Snapshot<Added>,
        told: Snapshot<TranscriptLine>,
    },
}

/// Answered lines by rising turns, as contracts see them. None of them takes bytes: what is asked of them is tallied as each
/// is added.
#[derive(Drop)]
pub struct TranscriptLines {
    added: Snapshot<Added>,
    accepted: usize,
    refused: usize,
    faulted: bool,
    /// The evidence of the first that lacked memory.
    lack: Option<Lack>,
}

impl Model for TranscriptLines {
    ghost use Rattle.std.specs.Prelude.{List, is_some};
    ghost use Rattle.lane_runner.specs.declared.transcript.TranscriptLine.{TranscriptLine as ALine};
    ghost use Rattle.lane_runner.specs.inside.Added.{AreTallied, all_added};

    ghost Value = { List ALine };

    ghost view = { λ lines. all_added lines.added.value };

    ghost invariant = { λ lines. AreTallied (all_added lines.added.value) lines.accepted lines.refused lines.faulted (is_some lines.lack) };
}

impl TranscriptLines {
    /// No lines.
    pub(crate) fn new() -> TranscriptLines
        ensures { result ≡ [] }
    {
        TranscriptLines {
            added: Snapshot::of(&Added::Nothing),
            accepted: 0,
            refused: 0,
            faulted: false,
            lack: None,
        }
    }

    /// Tallies one more line, which is dropped.
    pub(crate) fn add(&mut self, told: TranscriptLine)
        requires few { length self.old < 2 ^ 32 }
        ensures { self.new ≡ self.old ++ told ∷ [] }
    {
        self.accepted += is_accepted(&told.outcome) as usize;
        self.refused += is_refused(&told.outcome) as usize;
        self.faulted |= is_faulted(&told.outcome);
        self.lack = earlier_of(self.lack, lack_in(&told.outcome));
        let earlier = mem::replace(&mut self.added, Snapshot::of(&Added::Nothing));
        let added = Added::Of {
            earlier,
            told: Snapshot::of(&told),
        };
        self.added = Snapshot::of(&added);
    }

    /// How many postings were accepted.
    pub fn accepted(&self) -> usize
        ensures { result ≡ accepted_lines self.now }
    {
        self.accepted
    }

    /// How many postings were refused.
    pub fn refused(&self) -> usize
        ensures { result ≡ refused_lines self.now }
    {
        self.refused
    }

    /// Whether the disk failed in a posting.
    pub fn any_faulted(&self) -> bool
        ensures { result ≡ any_faulted self.now }
    {
        self.faulted
    }

    /// The evidence of the first posting or valuation for which memory was lacking, if there is one.
    pub fn lack(&self) -> Option<Lack>
        ensures { is_some result ≡ any_lacked self.now }
    {
        self.lack
    }
}

pub(crate) fn is_accepted(outcome: &Outcome) -> bool
    ensures { result ≡ tells_accepted outcome.now }
{
    matches!(*outcome, Outcome::Posted(Answer::Accepted(_)))
}

fn is_refused(outcome: &Outcome) -> bool
    ensures { result ≡ tells_refused outcome.now }
{
    matches!(*outcome, Outcome::Posted(Answer::Refused(_)))
}

fn is_faulted(outcome: &Outcome) -> bool
    ensures { result ≡ has_faulted outcome.now }
{
    matches!(*outcome, Outcome::Posted(Answer::DiskFault(_)))
}

fn lack_in(outcome: &Outcome) -> Option<Lack>
    ensures { is_some result ≡ lacks_memory outcome.now }
{
    match outcome {
        Outcome::Posted(Answer::NoMemory(lack)) => Some(*lack),
        Outcome::ValueNoMemory(lack) => Some(Lack::from(*lack)),
        _ => None,
    }
}

fn earlier_of(first: Option<Lack>, next: Option<Lack>) -> Option<Lack>
    ensures { is_some result ≡ (is_some first || is_some next) }
{
    match first {
        Some(lack) => Some(lack),
        None => next,
    }
}
