// The books of a checkpoint are read from its disk.
ghost use Rattle.std.specs.Prelude.{◌≡◌, ◌+◌, ◌*◌, ◌≤◌, length, take, drop, IfOk, IfSome, OnOk};
ghost use Rattle.checkpoint_store.specs.inside.Numbered.{AreSoundBooks};
ghost use Rattle.checkpoint_store.specs.inside.Reading.{OnlyReads};
ghost use Rattle.checkpoint_store.specs.inside.Storing.{AreBegun, AreBooksBehind, AreBytesOf, AreUpTo, BegunNext, DoFit, IsFrontOn, IsStored, UpToNext};

use crate::ReopenFault;
use crate::front::{Front, fits, front_at};
use crate::numbered::NumberedBooks;
use crate::policies::IN_PIECE;
use memory_requests::map_with_room;
use outside_io::{Disk, Failed};
use std::alloc::Global;
use versioned_book::KeyHashing;

/// The books of the disk's checkpoint, where it has one whose position isn't above the count.
#[tactic(auto, using(crate::proofs::InStore::none_stored, crate::proofs::InStore::other_figures, crate::proofs::InStore::stored_all))]
pub(crate) fn stored<E: Disk>(
    alloc: Global,
    disk: &mut E,
    count: u32,
) -> Result<Option<NumberedBooks>, ReopenFault>
    ensures disk { OnlyReads E.Disk disk.old disk.new result }
    ensures sound { IfOk result (λ found. IfSome found (λ books. AreSoundBooks books × (books.position ≤ count))) }
    ensures stored { E.honest disk.new → IfOk result (λ found. IsStored (E.reads disk.old) count found) }
{
    let Some(front) = front_on(disk)? else {
        return Ok(None);
    };
    if front.position > count || !fits(front) {
        return Ok(None);
    }
    books_behind(alloc, disk, front)
}

// The figures behind an open gate, where there is room for their policies.
#[tactic(auto, using(crate::proofs::InStore::no_front, crate::proofs::InStore::no_room, crate::proofs::InStore::front_there, crate::proofs::InStore::short_file))]
fn front_on<E: Disk>(disk: &mut E) -> Result<Option<Front>, ReopenFault>
    ensures disk { OnlyReads E.Disk disk.old disk.new result }
    ensures front { E.honest disk.new → IfOk result (λ found. IsFrontOn (E.reads disk.old) found) }
{
    let size = size_of(disk)?;
    if size < 64 {
        return Ok(None);
    }
    let mut bytes = [0; 64];
    read(disk, 0, &mut bytes)?;
    let Some(front) = front_at(&bytes) else {
        return Ok(None);
    };
    if (size - 64) / 48 < u64::from(front.policies) {
        return Ok(None);
    }
    Ok(Some(front))
}

// The policies behind the figures, a piece at a time.
#[tactic(auto, using(crate::proofs::InStore::all_behind, crate::proofs::InStore::begun_sound))]
fn books_behind<E: Disk>(
    alloc: Global,
    disk: &mut E,
    front: Front,
) -> Result<Option<NumberedBooks>, ReopenFault>
    requires fit { DoFit front }
    requires long { E.honest disk.old → 64 + 48 * front.policies ≤ length (E.reads disk.old) }
    ensures disk { OnlyReads E.Disk disk.old disk.new result }
    ensures sound { IfOk result (λ found. IfSome found (λ books. AreSoundBooks books × (books.position ≡ front.position))) }
    ensures behind { E.honest disk.new → IfOk result (λ found. AreBooksBehind (E.reads disk.old) front found) }
{
    let many = front.policies as usize;
    let policies = match map_with_room(alloc, many, KeyHashing) {
        Ok(policies) => policies,
        Err(lack) => return Err(ReopenFault::NoMemory(lack)),
    };
    let mut books = NumberedBooks {
        policies,
        position: front.position,
        upgrade: front.upgrade,
        ledger: front.ledger,
    };
    let mut done = 0;
    while done < front.policies {
        let many = (front.policies - done).min(IN_PIECE as u32);
        if !add_piece(disk, front, done, many, &mut books)? {
            return Ok(None);
        }
        done += many;
    }
    Ok(Some(books))
}

// Reads so many policies, from that of an index on, and adds them, where each is one of a new number.
fn add_piece<E: Disk>(
    disk: &mut E,
    front: Front,
    first: u32,
    many: u32,
    books: &mut NumberedBooks,
) -> Result<bool, ReopenFault>
    requires few { many ≤ 2048 }
    requires within { first + many ≤ front.policies }
    requires long { E.honest disk.old → 64 + 48 * front.policies ≤ length (E.reads disk.old) }
    requires begun { AreBegun front first books.old }
    ensures disk { OnlyReads E.Disk disk.old disk.new result }
    ensures begun { IfOk result (λ added. BegunNext front (first + many) books.new added) }
    ensures next { E.honest disk.new → AreUpTo (E.reads disk.old) front first books.old
        → IfOk result (λ added. UpToNext (E.reads disk.old) front (first + many) books.new added) }
{
    let mut piece = [0; 98_304];
    read_piece(disk, first, many, &mut piece)?;
    books.add_all(&piece, many)
}

// Reads the bytes of so many policies, from that of an index on.
fn read_piece<E: Disk>(
    disk: &mut E,
    first: u32,
    many: u32,
    piece: &mut [u8; 98_304],
) -> Result<(), ReopenFault>
    requires few { many ≤ 2048 }
    requires long { E.honest disk.old → 64 + 48 * (first + many) ≤ length (E.reads disk.old) }
    ensures disk { OnlyReads E.Disk disk.old disk.new result }
    ensures bytes { E.honest disk.new → OnOk result (AreBytesOf (E.reads disk.old) first many piece.new) }
{
    let at = 64 + 48 * u64::from(first);
    read(disk, at, &mut piece[..48 * many as usize])
}

fn size_of<E: Disk>(disk: &mut E) -> Result<u64, ReopenFault>
    ensures disk { OnlyReads E.Disk disk.old disk.new result }
    ensures length { E.honest disk.new → IfOk result (λ n. n ≡ length (E.reads disk.old)) }
{
    match disk.len() {
        Ok(size) => Ok(size),
        Err(Failed) => Err(ReopenFault::DiskFault(disk.faults())),
    }
}

fn read<E: Disk>(disk: &mut E, at: u64, buf: &mut [u8]) -> Result<(), ReopenFault>
    requires { E.honest disk.old → at + length buf.old ≤ length (E.reads disk.old) }
    ensures disk { OnlyReads E.Disk disk.old disk.new result }
    ensures bytes { E.honest disk.new → OnOk result (buf.new ≡ take (length buf.old) (drop at (E.reads disk.old))) }
{
    match disk.read(at, buf) {
        Ok(()) => Ok(()),
        Err(Failed) => Err(ReopenFault::DiskFault(disk.faults())),
    }
}
