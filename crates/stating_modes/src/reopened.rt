// The two disks are opened, and the journal's snapshot is read from them.
ghost use Rattle.std.specs.Prelude.{◌≡◌, IfErr, IfOk};
ghost use Rattle.stating_modes.specs.Names.{store_disk, disk_of};
ghost use Rattle.stating_modes.specs.Stated.{ReadsFew};
ghost use Rattle.stating_modes.specs.inside.Reopened.{HasJournalOn, HasNoSnapshot, HasReopened, HasStoreOn, as_start_cause, disks_under};
ghost use Rattle.stating_modes.specs.TwoDisks.{TwoDisks};

use crate::finished::FinishedKept;
use checkpoint_store::{Books, ReopenFault, Store, reopen_books};
use office_state::{StartCause, cause_of};
use outside_io::{Disk, Steps};
use posting_journal::Journal;
use program_endings::Ending;
use std::alloc::Global;
use std::sync::ledger::Ledger;

/// A journal and a store on their disks, and the journal's books.
#[derive(Drop)]
pub struct Reopened<D: Disk, E: Disk> {
    pub books: Books,
    pub journal: Journal<D>,
    pub store: Store<E>,
}

/// Why there is no snapshot, and the two disks.
#[derive(Drop)]
pub struct UnopenedDisks<D, E> {
    pub cause: StartCause,
    pub disk: D,
    pub second: E,
}

/// Opens the journal, then the store, and reads the journal's snapshot, from the store's checkpoint on if it has one
/// that isn't above the journal's count. Each record that is read counts as one step.
pub fn reopen_both<D: Disk, E: Disk, L: Ledger>(
    alloc: Global,
    disk: D,
    second: E,
    steps: &mut Steps<L>,
) -> Result<Reopened<D, E>, UnopenedDisks<D, E>>
    ensures reopened { IfOk result (λ opened. HasReopened disk second opened) }
    ensures few { IfOk result (λ opened. ReadsFew D.Disk E.Disk (disks_under disk second opened) steps.old steps.new) }
    ensures none { IfErr result (λ none. HasNoSnapshot D.Disk E.Disk
        (record { old = disk; new = none.disk; second = second; kept = none.second }) none.cause) }
{
    match Journal::start(disk) {
        Ok(journal) => start_store(alloc, journal, second, steps),
        Err(fault) => Err(UnopenedDisks {
            cause: cause_of(fault.cause),
            disk: fault.disk,
            second,
        }),
    }
}

// Starts the store, and reads the snapshot.
fn start_store<D: Disk, E: Disk, L: Ledger>(
    alloc: Global,
    journal: Journal<D>,
    second: E,
    steps: &mut Steps<L>,
) -> Result<Reopened<D, E>, UnopenedDisks<D, E>>
    ensures reopened { (disk : D) → HasJournalOn disk journal → IfOk result (λ opened. HasReopened disk second opened) }
    ensures few { (disk : D) → HasJournalOn disk journal
        → IfOk result (λ opened. ReadsFew D.Disk E.Disk (disks_under disk second opened) steps.old steps.new) }
    ensures none { (disk : D) → HasJournalOn disk journal → IfErr result (λ none. HasNoSnapshot D.Disk E.Disk
        (record { old = disk; new = none.disk; second = second; kept = none.second }) none.cause) }
{
    match Store::start(second) {
        Ok(store) => read_snapshot(alloc, journal, store, steps),
        Err(fault) => Err(UnopenedDisks {
            cause: StartCause::DiskFault(fault.count),
            disk: journal.release(),
            second: fault.disk,
        }),
    }
}

// Reads the snapshot.
fn read_snapshot<D: Disk, E: Disk, L: Ledger>(
    alloc: Global,
    journal: Journal<D>,
    store: Store<E>,
    steps: &mut Steps<L>,
) -> Result<Reopened<D, E>, UnopenedDisks<D, E>>
    ensures reopened { (disk : D) (second : E) → HasJournalOn disk journal → HasStoreOn second store
        → IfOk result (λ opened. HasReopened disk second opened) }
    ensures few { (disk : D) (second : E) → HasJournalOn disk journal → HasStoreOn second store
        → IfOk result (λ opened. ReadsFew D.Disk E.Disk (disks_under disk second opened) steps.old steps.new) }
    ensures none { (disk : D) (second : E) → HasJournalOn disk journal → HasStoreOn second store
        → IfErr result (λ none. HasNoSnapshot D.Disk E.Disk
        (record { old = disk; new = none.disk; second = second; kept = none.second }) none.cause) }
{
    let mut journal = journal;
    let mut store = store;
    match reopen_books(alloc, &mut store, &mut journal, steps) {
        Ok(books) => Ok(Reopened {
            books,
            journal,
            store,
        }),
        Err(fault) => Err(unread(fault, journal, store)),
    }
}

// Why the snapshot isn't read, and the two disks.
fn unread<D: Disk, E: Disk>(
    fault: ReopenFault,
    journal: Journal<D>,
    store: Store<E>,
) -> UnopenedDisks<D, E>
    ensures cause { result.cause ≡ as_start_cause fault }
    ensures disk { result.disk ≡ disk_of journal }
    ensures second { result.second ≡ store_disk store }
{
    UnopenedDisks {
        cause: start_cause(fault),
        disk: journal.release(),
        second: store.release(),
    }
}

// The same fault, as a cause.
fn start_cause(fault: ReopenFault) -> StartCause
    ensures { result ≡ as_start_cause fault }
{
    match fault {
        ReopenFault::DiskFault(count) => StartCause::DiskFault(count),
        ReopenFault::BadRecord(n) => StartCause::BadRecord(n),
        ReopenFault::NoMemory(lack) => StartCause::NoMemory(lack),
    }
}

impl<D: Disk, E: Disk> Reopened<D, E> {
    /// Gives the two disks back.
    pub fn close(self, ending: Ending) -> FinishedKept<D, E>
        ensures ending { result.ending ≡ ending }
        ensures disk { result.disk ≡ disk_of self.journal }
        ensures second { result.second ≡ store_disk self.store }
    {
        FinishedKept {
            ending,
            disk: self.journal.release(),
            second: self.store.release(),
        }
    }
}
