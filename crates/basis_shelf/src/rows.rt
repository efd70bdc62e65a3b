// The basis file.
ghost use Rattle.std.specs.Prelude.{◌≡◌, ◌<◌, ◌≤◌, ◌∷◌, List, IfOk, IfErr, IsErrOf};
ghost use Rattle.basis_shelf.specs.Names.{Rose, Files, AreBounded};
ghost use Rattle.basis_shelf.specs.Bases.{AreRowsNamed};
ghost use Rattle.basis_shelf.specs.Answers.{IfBad};
ghost use Rattle.basis_shelf.specs.inside.Parts.{IsBadBookFile, TellsRows};

use crate::fault::{BasisWord, NoBasis};
use crate::shelf_file::{bad_file, fetch_file};
use basis_book::{BasisFault, BasisRows, Name, read_basis};
use outside_io::Shelf;
use std::alloc::Global;

/// The rows of the basis file.
pub fn fetch_rows<H: Shelf>(alloc: Global, name: &Name, shelf: &mut H) -> Result<BasisRows, NoBasis>
    ensures rows { (at : Files) → H.agrees shelf.new at → IfOk result (AreRowsNamed at name.now) }
    ensures bounded { IfOk result AreBounded }
    ensures bad { (at : Files) → H.agrees shelf.new at → IfErr result (IfBad (IsBadBookFile at name.now)) }
    ensures agreed { (at : Files) → H.agrees shelf.new at → H.agrees shelf.old at }
    ensures failed { IsErrOf result NoBasis.ReadFault → Rose (H.faults shelf.old) (H.faults shelf.new) }
    // Where the shelf failed this is told, and nothing else.
    ensures counted { H.faults shelf.old < H.faults shelf.new → IsErrOf result NoBasis.ReadFault }
    ensures later { H.faults shelf.old ≤ H.faults shelf.new }
    ensures asked { H.asked shelf.new ≡ name.now ∷ H.asked shelf.old }
    ensures stays { H.files shelf.new ≡ H.files shelf.old }
{
    let bytes = fetch_file(alloc, name, 0, shelf)?;
    match read_basis(alloc, bytes.as_slice()) {
        Ok(rows) => Ok(rows),
        Err(fault) => Err(no_rows(alloc, name, fault)),
    }
}

/// The answer that the basis file has a fault.
fn no_rows(alloc: Global, name: &Name, fault: BasisFault) -> NoBasis
    ensures { TellsRows name.now fault result }
{
    match fault {
        BasisFault::TooManyRows => bad_file(alloc, name, 1_001, BasisWord::TooManyRows),
        BasisFault::BadBasisRow(row) => bad_file(alloc, name, row, BasisWord::BadRow),
        BasisFault::NotRising(row) => bad_file(alloc, name, row, BasisWord::NotRising),
        BasisFault::NoMemory(lack) => NoBasis::NoMemory(lack),
    }
}
