ghost use Rattle.std.specs.Prelude.{◌≡◌, IsSome};

use watcher_set::Lack;

/// How a run of the program ends.
#[derive(Clone, Copy, PartialEq, Eq, Debug)]
pub enum Ending {
    /// What was asked for was done.
    Done,
    /// The words aren't of a command.
    Usage,
    /// The script is too long, or a row of it is no line.
    BadScript,
    /// A file of the basis is absent, too long or refused.
    BadBasis,
    /// The disk's file is no journal, or has a record that can't stand.
    BadJournal,
    /// The input failed, or the shelf.
    ReadFault,
    /// The output failed.
    WriteFault,
    /// A disk failed.
    DiskFault,
    /// Memory was refused.
    NoMemory(Lack),
    /// There are fewer commands than were to be valued.
    Ahead,
}

impl Ending {
    ghost use Rattle.program_endings.specs.Status.{status_of};

    /// The program's exit status.
    pub fn status(self) -> u8
        ensures { result ≡ status_of self }
    {
        match self {
            Ending::Done => 0,
            Ending::Usage => 2,
            Ending::BadScript => 3,
            Ending::BadBasis => 4,
            Ending::BadJournal => 5,
            Ending::ReadFault => 6,
            Ending::WriteFault => 7,
            Ending::DiskFault => 8,
            Ending::NoMemory(_) => 9,
            Ending::Ahead => 10,
        }
    }

    /// The evidence that memory was wanting, where the run ends for that. No other ending has one.
    pub fn lack(self) -> Option<Lack>
        ensures wanting { status_of self ≡ 9 → IsSome result }
        ensures others { IsSome result → status_of self ≡ 9 }
    {
        match self {
            Ending::NoMemory(lack) => Some(lack),
            _ => None,
        }
    }
}
