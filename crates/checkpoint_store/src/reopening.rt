// A store and a journal are reopened.
ghost use Rattle.std.specs.Prelude.{◌≡◌, ℕ, ◌≤◌, List, [], length, None, IfErr, IfOk};
ghost use Rattle.checkpoint_store.specs.Names.{HasReplayCause, StaysAs, Stops, judge, disk_of};
ghost use Rattle.checkpoint_store.specs.Checkpoints.{IsSoundSnapshot};
ghost use Rattle.checkpoint_store.specs.Reopening.{AreDecided, IsSnapshotOfFront, IsSnapshotRead, IsStartOf, IsTrueWhereUsed, KeepsAsBefore, Reopens};
ghost use Rattle.checkpoint_store.specs.Stores.{store_disk};
ghost use Rattle.checkpoint_store.specs.inside.Numbered.{AreSoundBooks, as_snapshot};
ghost use Rattle.checkpoint_store.specs.inside.Reading.{HasReadCause};

use crate::faults::reopen_fault;
use crate::numbered::NumberedBooks;
use crate::stored::stored;
use crate::{Books, ReopenFault, Snapshot, Store};
use journal_replay::{ReplayFault, replay, replay_all};
use outside_io::{Disk, Steps};
use posting_journal::Journal;
use std::alloc::Global;
use std::sync::ledger::Ledger;

/// The books of a journal. Its records are decided anew from the position of the store's checkpoint on, where there is
/// one and it isn't above the journal's count, and else from the first on; each that is read is a step. A fault of a disk
/// has that disk's count, which rose in this call; `BadRecord(n)` is the first record from there on that spells no command
/// which can follow. Neither disk is written to.
pub fn reopen_books<E: Disk, D: Disk, L: Ledger>(
    alloc: Global,
    store: &mut Store<E>,
    journal: &mut Journal<D>,
    steps: &mut Steps<L>,
) -> Result<Books, ReopenFault>
    ensures { Reopens store.old store.new journal.old journal.new steps.old steps.new result }
{
    let mut books = begin(alloc, store, journal.count())?;
    let from = books.position;
    match replay(journal, from, &mut books, steps) {
        Ok(()) => Ok(Books::new(books)),
        Err(fault) => Err(reopen_fault(fault)),
    }
}

/// The books of a journal without a store: each record is decided anew, from the first on. Nothing is written.
#[tactic(auto, using(crate::proofs::StartSteps::all_read, crate::proofs::StartSteps::reading_stopped))]
pub fn read_books<D: Disk>(alloc: Global, journal: &mut Journal<D>) -> Result<Books, ReplayFault>
    ensures stays { StaysAs journal.old journal.new }
    ensures cause { HasReplayCause journal.old (disk_of journal.new) result }
    ensures sound { IfOk result IsSoundSnapshot }
    ensures read { IfOk result (IsSnapshotRead journal.old (disk_of journal.new)) }
    ensures stopped { IfErr result (Stops AreDecided (λ commands command. judge commands command ≡ None)
        journal.old (disk_of journal.new) []) }
{
    let mut books = NumberedBooks::new(alloc);
    match replay_all(journal, &mut books) {
        Ok(()) => Ok(Books::new(books)),
        Err(fault) => Err(fault),
    }
}

/// The snapshot of a journal, by `reopen_books`.
pub fn reopen<E: Disk, D: Disk, L: Ledger>(
    alloc: Global,
    store: &mut Store<E>,
    journal: &mut Journal<D>,
    steps: &mut Steps<L>,
) -> Result<Snapshot, ReopenFault>
    ensures { Reopens store.old store.new journal.old journal.new steps.old steps.new result }
{
    let books = reopen_books(alloc, store, journal, steps)?;
    match books.snapshot(alloc) {
        Ok(snapshot) => Ok(snapshot),
        Err(lack) => Err(ReopenFault::NoMemory(lack)),
    }
}

// The books of the store's checkpoint, or of no command.
#[tactic(auto, using(crate::proofs::StartSteps::start_found, crate::proofs::StartSteps::start_none, crate::proofs::StartSteps::front_none))]
fn begin<E: Disk>(
    alloc: Global,
    store: &mut Store<E>,
    count: u32,
) -> Result<NumberedBooks, ReopenFault>
    ensures cause { HasReadCause (E.faults (store_disk store.old)) (E.faults (store_disk store.new)) result }
    ensures store { KeepsAsBefore store.old store.new }
    ensures sound { IfOk result (λ books. AreSoundBooks books × (books.position ≤ count)) }
    ensures start { E.honest (store_disk store.new) → IfOk result (λ books. IsStartOf (E.reads (store_disk store.old)) count books.position) }
    ensures front { (bodies : List (List ℕ)) → E.honest (store_disk store.new) → length bodies ≡ count
        → IsTrueWhereUsed (E.reads (store_disk store.old)) bodies → IfOk result (λ books. IsSnapshotOfFront bodies (as_snapshot books)) }
{
    match stored(alloc, &mut store.disk, count)? {
        Some(books) => Ok(books),
        None => Ok(NumberedBooks::new(alloc)),
    }
}
