// The journal's books are read without a second disk.
ghost use Rattle.std.specs.Prelude.{IfErr, IfOk};
ghost use Rattle.office_state.specs.Opening.{HasNotOpened};
ghost use Rattle.stating_modes.specs.inside.Reopened.{AreBooksOn, HasJournalOn};

use checkpoint_store::{Books, read_books};
use office_state::{StartFault, cause_of, cause_of_replay};
use outside_io::Disk;
use posting_journal::Journal;
use std::alloc::Global;

/// The books of a journal, and the disk on which they were read.
#[derive(Drop)]
pub struct BooksRead<D> {
    pub books: Books,
    pub disk: D,
}

/// Opens the journal, and reads its books from the first record on.
pub fn read_alone<D: Disk>(alloc: Global, disk: D) -> Result<BooksRead<D>, StartFault<D>>
    ensures read { IfOk result (λ read. AreBooksOn D.Disk disk read.disk read.books) }
    ensures none { IfErr result (λ fault. HasNotOpened D.Disk disk fault.disk fault.cause) }
{
    match Journal::start(disk) {
        Ok(journal) => read_journal(alloc, journal),
        Err(fault) => Err(StartFault {
            cause: cause_of(fault.cause),
            disk: fault.disk,
        }),
    }
}

// Reads the books of a journal that was opened.
fn read_journal<D: Disk>(alloc: Global, journal: Journal<D>) -> Result<BooksRead<D>, StartFault<D>>
    ensures read { (disk : D) → HasJournalOn disk journal
        → IfOk result (λ read. AreBooksOn D.Disk disk read.disk read.books) }
    ensures none { (disk : D) → HasJournalOn disk journal
        → IfErr result (λ fault. HasNotOpened D.Disk disk fault.disk fault.cause) }
{
    let mut journal = journal;
    match read_books(alloc, &mut journal) {
        Ok(books) => Ok(BooksRead {
            books,
            disk: journal.release(),
        }),
        Err(fault) => Err(StartFault {
            cause: cause_of_replay(fault),
            disk: journal.release(),
        }),
    }
}
