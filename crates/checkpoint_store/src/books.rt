// The books of a journal, which a snapshot can be made of.
ghost use Rattle.std.specs.Prelude.{◌≡◌, IfOk};
ghost use Rattle.checkpoint_store.specs.inside.Numbered.{as_snapshot};

use crate::Snapshot;
use crate::numbered::NumberedBooks;
use memory_requests::copied;
use money_ledgers::Ledger;
use policy_types::{NoMemory, Policy, Slice};
use std::alloc::Global;
use std::marker::Model;

/// The books of a journal, as they were read. Contracts see the snapshot that they are.
#[derive(Drop)]
pub struct Books {
    books: NumberedBooks,
}

impl Model for Books {
    ghost use Rattle.checkpoint_store.specs.declared.snapshot.Snapshot.{Snapshot};
    ghost use Rattle.checkpoint_store.specs.inside.Numbered.{as_snapshot};

    ghost Value = { Snapshot };

    ghost view = { λ b. as_snapshot b.books };
}

impl Books {
    pub(crate) fn new(books: NumberedBooks) -> Books
        ensures { result ≡ as_snapshot books }
    {
        Books { books }
    }

    /// How many commands were accepted.
    pub fn position(&self) -> u32
        ensures { result ≡ self.now.position }
    {
        self.books.position
    }

    /// The balances of the four accounts, in cents.
    pub fn ledger(&self) -> Ledger
        ensures { result ≡ self.now.ledger }
    {
        self.books.ledger
    }

    /// The policies in order of issue.
    pub fn policies(&self) -> &[Policy]
        ensures { result.now ≡ self.now.book }
    {
        self.books.policies.values().as_slice()
    }

    /// The snapshot, which has a list of the policies of its own.
    pub fn snapshot(&self, alloc: Global) -> Result<Snapshot, NoMemory>
        ensures { IfOk result (λ snapshot. snapshot ≡ self.now) }
    {
        let book = copied(alloc, self.policies())?;
        Ok(Snapshot {
            position: self.books.position,
            upgrade: self.books.upgrade,
            ledger: self.books.ledger,
            book: Slice::new(book),
        })
    }
}
