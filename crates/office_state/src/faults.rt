// Why no office is opened.
ghost use Rattle.std.specs.Prelude.{◌≡◌};
ghost use Rattle.office_state.specs.inside.Replays.{as_cause, as_replay_cause};

use journal_replay::ReplayFault;
use policy_types::NoMemory;
use posting_journal::JournalCause;

/// Why no office was opened.
#[derive(Clone, Copy, PartialEq, Eq, Debug)]
pub enum StartCause {
    /// The disk failed; its count of faults, which rose in the call.
    DiskFault(u64),
    /// The file is neither a journal nor an unfinished creation of one.
    NotAJournal,
    /// The record with this number, from 0, is cut short, one too many, or none of an accepted command.
    BadRecord(u32),
    /// Memory was refused.
    NoMemory(NoMemory),
}

/// Why no office was opened, and its disk.
#[derive(Drop)]
pub struct StartFault<D> {
    pub cause: StartCause,
    pub disk: D,
}

/// The same cause.
pub fn cause_of(cause: JournalCause) -> StartCause
    ensures { result ≡ as_cause cause }
{
    match cause {
        JournalCause::DiskFault(count) => StartCause::DiskFault(count),
        JournalCause::NotAJournal => StartCause::NotAJournal,
        JournalCause::BadRecord(n) => StartCause::BadRecord(n),
    }
}

/// The same fault, as a cause.
pub fn cause_of_replay(fault: ReplayFault) -> StartCause
    ensures { result ≡ as_replay_cause fault }
{
    match fault {
        ReplayFault::DiskFault(count) => StartCause::DiskFault(count),
        ReplayFault::BadRecord(n) => StartCause::BadRecord(n),
        ReplayFault::NoMemory(lack) => StartCause::NoMemory(lack),
    }
}
