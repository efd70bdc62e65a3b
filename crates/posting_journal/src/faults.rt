// What the calls of the journal answer where they fail.
ghost use Rattle.std.specs.Prelude.{◌≡◌};
ghost use Rattle.posting_journal.specs.declared.faults.Unopened.TheVariants.{Unread};

use outside_io::{Disk, Failed};

/// The disk failed. `count` is its count of faults, which rose in the call.
#[derive(Clone, Copy, PartialEq, Eq, Debug)]
pub struct DiskFault {
    pub count: u64,
}

/// Why a journal wasn't opened.
#[derive(Clone, Copy, PartialEq, Eq, Debug)]
pub enum JournalCause {
    /// The disk failed; its count of faults, which rose in the call.
    DiskFault(u64),
    /// The file is neither a journal nor an unfinished creation of one.
    NotAJournal,
    /// The record with this number, from 0, is cut short or one too many.
    BadRecord(u32),
}

/// Why a journal wasn't opened, and its disk.
#[derive(Debug, Drop)]
pub struct JournalFault<D> {
    pub cause: JournalCause,
    pub disk: D,
}

// Why a file wasn't opened, before the count is asked for.
#[derive(Clone, Copy, PartialEq, Eq, Debug)]
pub(crate) enum Unopened {
    Unread,
    NotAJournal,
    BadRecord(u32),
}

impl From<Failed> for Unopened {
    ghost from_gives = { λ _ fault. fault ≡ Unread };

    fn from(_: Failed) -> Self {
        Unopened::Unread
    }
}
