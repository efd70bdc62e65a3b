// What the calls of the store answer where they fail.
ghost use Rattle.std.specs.Prelude.{◌≡◌};
ghost use Rattle.checkpoint_store.specs.inside.Reading.{as_reopen_fault};

use journal_replay::ReplayFault;
use policy_types::NoMemory;

/// Why a store wasn't started: its disk failed. `count` is the disk's count of faults, which rose in the call.
#[derive(Debug, Drop)]
pub struct StoreFault<E> {
    pub count: u64,
    pub disk: E,
}

/// Why a store and a journal aren't reopened: one of the disks failed, and this is its count; record `n` is the first
/// from the start on that spells no command which can follow; or there is no memory.
#[derive(Debug, Drop)]
pub enum ReopenFault {
    DiskFault(u64),
    BadRecord(u32),
    NoMemory(NoMemory),
}

/// The same fault.
pub(crate) fn reopen_fault(fault: ReplayFault) -> ReopenFault
    ensures { result ≡ as_reopen_fault fault }
{
    match fault {
        ReplayFault::DiskFault(count) => ReopenFault::DiskFault(count),
        ReplayFault::BadRecord(n) => ReopenFault::BadRecord(n),
        ReplayFault::NoMemory(lack) => ReopenFault::NoMemory(lack),
    }
}
