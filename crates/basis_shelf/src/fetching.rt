ghost use Rattle.std.specs.Prelude.{◌≡◌, ◌<◌, ◌≤◌, List, Result, IfOk, IfErr, IsErrOf};
ghost use Rattle.basis_shelf.specs.Names.{AsksOnly, Rose, Files, Dated};
ghost use Rattle.basis_shelf.specs.declared.fault.BadBasis.{BadBasis as ABadBasis};
ghost use Rattle.basis_shelf.specs.Bases.{IsBasis, IsOfBasis};
ghost use Rattle.basis_shelf.specs.FirstBad.{IsFirstBadFile};
ghost use Rattle.basis_shelf.specs.Answers.{GivesBasis, IfBad, IsBasisAnswer};

use crate::fault::NoBasis;
use crate::rows::fetch_rows;
use crate::tables::fetch_tables;
use basis_book::{Basis, Name};
use outside_io::Shelf;
use std::alloc::Global;

/// The basis whose file has this name on the shelf.
///
/// The basis file is fetched and judged whole. Then each table is fetched and read once for each name, in the order of
/// the first rows that name them; the first file that is absent, too long or refused is the answer.
pub fn fetch_basis<H: Shelf>(alloc: Global, name: &Name, shelf: &mut H) -> Result<Basis, NoBasis>
    ensures basis { (at : Files) → H.agrees shelf.new at → IfOk result (IsBasis at name.now) }
    ensures bad { (at : Files) → H.agrees shelf.new at → IfErr result (IfBad (IsFirstBadFile at name.now)) }
    // Whatever answer is due is given, unless the shelf fails or memory is refused.
    ensures due { (at : Files) (answer : Result (List Dated) ABadBasis) → H.agrees shelf.new at
        → IsBasisAnswer at name.now answer → GivesBasis result answer }
    ensures agreed { (at : Files) → H.agrees shelf.new at → H.agrees shelf.old at }
    ensures failed { IsErrOf result NoBasis.ReadFault → Rose (H.faults shelf.old) (H.faults shelf.new) }
    // Where the shelf failed this is told, and nothing else.
    ensures counted { H.faults shelf.old < H.faults shelf.new → IsErrOf result NoBasis.ReadFault }
    ensures later { H.faults shelf.old ≤ H.faults shelf.new }
    // Nothing is asked for but the files of the basis.
    ensures asked { (at : Files) → H.agrees shelf.new at
        → AsksOnly (IsOfBasis at name.now) (H.asked shelf.old) (H.asked shelf.new) }
    ensures stays { H.files shelf.new ≡ H.files shelf.old }
{
    fetch_parts(alloc, name, shelf)
}

// The basis file and its tables.
fn fetch_parts<H: Shelf>(alloc: Global, name: &Name, shelf: &mut H) -> Result<Basis, NoBasis>
    ensures basis { (at : Files) → H.agrees shelf.new at → IfOk result (IsBasis at name.now) }
    ensures bad { (at : Files) → H.agrees shelf.new at → IfErr result (IfBad (IsFirstBadFile at name.now)) }
    ensures agreed { (at : Files) → H.agrees shelf.new at → H.agrees shelf.old at }
    ensures failed { IsErrOf result NoBasis.ReadFault → Rose (H.faults shelf.old) (H.faults shelf.new) }
    // Where the shelf failed this is told, and nothing else.
    ensures counted { H.faults shelf.old < H.faults shelf.new → IsErrOf result NoBasis.ReadFault }
    ensures later { H.faults shelf.old ≤ H.faults shelf.new }
    ensures asked { (at : Files) → H.agrees shelf.new at
        → AsksOnly (IsOfBasis at name.now) (H.asked shelf.old) (H.asked shelf.new) }
    ensures stays { H.files shelf.new ≡ H.files shelf.old }
{
    let rows = fetch_rows(alloc, name, shelf)?;
    let tables = fetch_tables(alloc, rows.as_slice(), shelf)?;
    let Ok(basis) = Basis::of(rows, tables) else {
        unreachable!()
    };
    Ok(basis)
}
