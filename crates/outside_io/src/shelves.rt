// A shelf of files, each fetched whole by its name.
ghost use Rattle.std.specs.Prelude.{◌≡◌, ℕ, ◌<◌, ◌≤◌, ◌∷◌, Option, None, Some, List, length, vec_len, IfOk, IsSomeAnd, IsErrOf};
ghost use Rattle.outside_io.specs.Faults.{Rose};
ghost use Rattle.outside_io.specs.FileNames.{IsName};
ghost use Rattle.outside_io.specs.Shelves.{Files};

use crate::FetchFault;
use std::alloc::Global;

/// The bytes that a file on the shelf may have.
pub const SHELF_LIMIT: u32 = 4_194_304;

/// Fetches files by name. Its count of faults never falls, and fetching changes no file.
pub trait Shelf {
    /// How many faults it has had.
    ghost faults: { Self → ℕ };

    /// The bytes at each name, where it tells them.
    ghost files: { Self → Option Files };

    /// Each answer so far is the one that these files give.
    ghost agrees: { Self → Files → Type 0 };

    /// The names that it was asked for, the newest first.
    ghost asked: { Self → List (List ℕ) };

    /// How many faults it has had. The count stands still at its type's end.
    fn faults(&self) -> u64
        ensures { result ≡ faults self.now };

    /// The bytes of the file with this name, of which there may be at most 4 MiB. Only a name that a file can have may be
    /// asked for, so that no caller can make the shelf fail.
    fn fetch(&mut self, alloc: Global, name: &str) -> Result<Vec<u8>, FetchFault>
        requires name { IsName name.now }
        ensures agreed { (at : Files) → agrees self.new at → agrees self.old at }
        ensures found { (at : Files) → agrees self.new at
            → IfOk result (λ bytes. at name.now ≡ Some bytes.items) }
        ensures within { IfOk result (λ bytes. vec_len bytes ≤ SHELF_LIMIT) }
        ensures absent { (at : Files) → agrees self.new at
            → IsErrOf result FetchFault.Absent → at name.now ≡ None }
        ensures too_long { (at : Files) → agrees self.new at
            → IsErrOf result FetchFault.TooLong
            → IsSomeAnd (at name.now) (λ bytes. SHELF_LIMIT < length bytes) }
        ensures failed { IsErrOf result FetchFault.Failed → Rose (faults self.old) (faults self.new) }
        ensures counted { faults self.old < faults self.new → IsErrOf result FetchFault.Failed }
        ensures later { faults self.old ≤ faults self.new }
        ensures asked { asked self.new ≡ name.now ∷ asked self.old }
        ensures stays { files self.new ≡ files self.old };

    /// Where it tells its files, it agrees with them.
    ghost agrees_with_files: { (shelf : Self) (at : Files)
        → files shelf ≡ Some at → agrees shelf at };
}
