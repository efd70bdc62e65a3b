ghost use Rattle.std.specs.Prelude.{◌≡◌};

use crate::command::Command;
use crate::listed::Listed;
use crate::policy::Policy;
use crate::refusal::Refusal;

/// A position in the list of accepted commands.
#[derive(Clone, Copy, PartialEq, Eq, Debug)]
pub enum At {
    /// The end of the list.
    Now,
    /// After this many commands.
    Position(u32),
}

/// What a caller asks of the office in one turn.
#[derive(Clone, Copy, PartialEq, Eq, Debug)]
pub enum Call {
    Post(Command),
    /// Pin the list as it stands.
    Pin,
    /// Pin the list as it stood after this many commands.
    PinAt(u32),
    /// Up to 256 policies of a pinned list, from the index `first`.
    Read { pin: u64, first: u32 },
    Unpin(u64),
    /// Drop what no pin needs.
    Trim,
}

/// Why a list isn't pinned.
#[derive(Clone, Copy, PartialEq, Eq, Debug)]
pub enum PinRefusal {
    /// The position lies above the count, which is given.
    Ahead(u32),
    /// The position lies below the floor, which is given.
    Trimmed(u32),
    /// As many pins are live as there may be.
    PinsFull,
}

/// Policies in order of issue.
pub type Slice = Listed<Policy>;

/// The reply of a turn.
#[derive(Drop)]
pub enum Reply {
    /// Posted, as the command of this number.
    Accepted(u32),
    Refused(Refusal),
    /// The disk failed; its count of faults as it then stood.
    Faulted(u64),
    Pinned { position: u32, policies: u32 },
    PinRefused(PinRefusal),
    Slice(Slice),
    Unpinned,
    /// The position before which nothing is kept.
    Floor(u32),
    /// Memory was refused, and the caller was answered so.
    Blank,
}

/// One turn of the history.
#[derive(Drop)]
pub struct Entry {
    pub caller: u64,
    pub call: Call,
    pub reply: Reply,
}
