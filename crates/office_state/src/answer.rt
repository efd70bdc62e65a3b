use policy_types::Refusal;
use watcher_set::Lack;

/// What a posting is answered.
#[derive(Clone, Copy, PartialEq, Eq, Debug)]
pub enum Answer {
    /// Accepted, as the command of this number.
    Accepted(u32),
    /// The rules refuse it, or as many commands are accepted as may be.
    Refused(Refusal),
    /// The disk failed; its count of faults, which rose in the call.
    DiskFault(u64),
    /// Memory was wanting, before anything else was done.
    NoMemory(Lack),
}
