// One file of a shelf.
ghost use Rattle.std.specs.Prelude.{◌≡◌, ◌<◌, ◌≤◌, ◌∷◌, vec_len, IfOk, IfErr, IsErrOf};
ghost use Rattle.basis_shelf.specs.Names.{Rose, Files};
ghost use Rattle.basis_shelf.specs.Files.{IsFile};
ghost use Rattle.basis_shelf.specs.Answers.{IfBad};
ghost use Rattle.basis_shelf.specs.inside.Parts.{IsToldOfTable, IsUnread};

use crate::fault::{BadBasis, BasisWord, NoBasis};
use basis_book::Name;
use outside_io::{FetchFault, Shelf};
use std::alloc::Global;

/// The answer that a file is bad.
pub fn bad_file(alloc: Global, name: &Name, place: u32, word: BasisWord) -> NoBasis
    ensures { IsToldOfTable name.now place word result }
{
    match Name::of(alloc, name.text().as_bytes()) {
        Ok(Some(name)) => NoBasis::Bad(BadBasis { name, place, word }),
        Ok(None) => unreachable!(),
        Err(lack) => NoBasis::NoMemory(lack),
    }
}

/// The bytes of a file; where it is absent or too long, this is the place.
pub fn fetch_file<H: Shelf>(
    alloc: Global,
    name: &Name,
    place: u32,
    shelf: &mut H,
) -> Result<Vec<u8>, NoBasis>
    ensures file { (at : Files) → H.agrees shelf.new at → IfOk result (λ bytes. IsFile at name.now bytes.items) }
    ensures within { IfOk result (λ bytes. vec_len bytes ≤ 4194304) }
    ensures bad { (at : Files) → H.agrees shelf.new at → IfErr result (IfBad (IsUnread at name.now place)) }
    ensures agreed { (at : Files) → H.agrees shelf.new at → H.agrees shelf.old at }
    ensures failed { IsErrOf result NoBasis.ReadFault → Rose (H.faults shelf.old) (H.faults shelf.new) }
    // Where the shelf failed this is told, and nothing else.
    ensures counted { H.faults shelf.old < H.faults shelf.new → IsErrOf result NoBasis.ReadFault }
    ensures later { H.faults shelf.old ≤ H.faults shelf.new }
    ensures asked { H.asked shelf.new ≡ name.now ∷ H.asked shelf.old }
    ensures stays { H.files shelf.new ≡ H.files shelf.old }
{
    match shelf.fetch(alloc, name.text()) {
        Ok(bytes) => Ok(bytes),
        Err(FetchFault::Absent) => Err(bad_file(alloc, name, place, BasisWord::Absent)),
        Err(FetchFault::TooLong) => Err(bad_file(alloc, name, place, BasisWord::TooLong)),
        Err(FetchFault::Failed) => Err(NoBasis::ReadFault),
        Err(FetchFault::NoMemory(lack)) => Err(NoBasis::NoMemory(lack)),
    }
}
