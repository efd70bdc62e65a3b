// The tables that the rows of a basis file name.
ghost use Rattle.std.specs.Prelude.{◌≡◌, ◌≤◌, ◌+◌, ◌<◌, ◌∷◌, ℕ, List, length, map, All, Contains, IsSome, IfOk, OnOk, IfErr, IsErrOf};
ghost use Rattle.indexmap.specs.IndexMap.{get_by_text};
ghost use Rattle.basis_shelf.specs.Names.{AsksOnly, Rose, Files, ARow};
ghost use Rattle.basis_shelf.specs.Bases.{IsTableNamed};
ghost use Rattle.basis_shelf.specs.FirstBad.{IsFirstBadRow};
ghost use Rattle.basis_shelf.specs.Answers.{IfBad};
ghost use Rattle.basis_shelf.specs.inside.Parts.{AreTables, IsBadTableFile, IsFaultOfAny, IsOfAny, KeepsKnown, TellsTable, word_of};

use crate::fault::{BasisWord, NoBasis};
use crate::shelf_file::{bad_file, fetch_file};
use basis_book::{BasisRow, Name};
use indexmap::IndexMap;
use memory_requests::{insert, text_of};
use outside_io::Shelf;
use select_rates::AnyTable;
use std::alloc::Global;
use xtbml_subset::{TableFault, TableKind, read_any};

/// The tables that the rows name, each fetched once.
pub fn fetch_tables<H: Shelf>(
    alloc: Global,
    rows: &[BasisRow],
    shelf: &mut H,
) -> Result<IndexMap<String, AnyTable>, NoBasis>
    requires { length rows.now ≤ 1000 }
    ensures known { IfOk result (λ tables. All (λ row. IsSome (get_by_text tables row.table)) rows.now) }
    ensures right { (at : Files) → H.agrees shelf.new at → IfOk result (λ tables. AreTables at (get_by_text tables)) }
    ensures bad { (at : Files) → H.agrees shelf.new at → IfErr result (IfBad (IsFirstBadRow at rows.now)) }
    ensures agreed { (at : Files) → H.agrees shelf.new at → H.agrees shelf.old at }
    ensures failed { IsErrOf result NoBasis.ReadFault → Rose (H.faults shelf.old) (H.faults shelf.new) }
    // Where the shelf failed this is told, and nothing else.
    ensures counted { H.faults shelf.old < H.faults shelf.new → IsErrOf result NoBasis.ReadFault }
    ensures later { H.faults shelf.old ≤ H.faults shelf.new }
    ensures asked { AsksOnly (Contains (map (λ (row : ARow). row.table) rows.now)) (H.asked shelf.old) (H.asked shelf.new) }
    ensures stays { H.files shelf.new ≡ H.files shelf.old }
{
    let mut tables = IndexMap::new(alloc);
    for (index, row) in rows.iter().enumerate() {
        add_table(alloc, &mut tables, &row.table, index as u32 + 1, shelf)?;
    }
    Ok(tables)
}

/// Adds the table of a row, unless it is there.
fn add_table<H: Shelf>(
    alloc: Global,
    tables: &mut IndexMap<String, AnyTable>,
    name: &Name,
    number: u32,
    shelf: &mut H,
) -> Result<(), NoBasis>
    ensures added { OnOk result (IsSome (get_by_text tables.new name.now)) }
    ensures kept { OnOk result (KeepsKnown (get_by_text tables.old) (get_by_text tables.new)) }
    ensures right { (at : Files) → H.agrees shelf.new at → AreTables at (get_by_text tables.old)
        → OnOk result (AreTables at (get_by_text tables.new)) }
    ensures bad { (at : Files) → H.agrees shelf.new at → IfErr result (IfBad (IsBadTableFile at name.now number)) }
    ensures agreed { (at : Files) → H.agrees shelf.new at → H.agrees shelf.old at }
    ensures failed { IsErrOf result NoBasis.ReadFault → Rose (H.faults shelf.old) (H.faults shelf.new) }
    // Where the shelf failed this is told, and nothing else.
    ensures counted { H.faults shelf.old < H.faults shelf.new → IsErrOf result NoBasis.ReadFault }
    ensures later { H.faults shelf.old ≤ H.faults shelf.new }
    ensures asked { AsksOnly (λ asked. asked ≡ name.now) (H.asked shelf.old) (H.asked shelf.new) }
    ensures stays { H.files shelf.new ≡ H.files shelf.old }
{
    if tables.contains_key(name.text()) {
        return Ok(());
    }
    let table = fetch_table(alloc, name, number, shelf)?;
    let key = match text_of(alloc, name.text()) {
        Ok(key) => key,
        Err(lack) => return Err(NoBasis::NoMemory(lack)),
    };
    match insert(tables, key, table) {
        Ok(_) => {}
        Err(lack) => return Err(NoBasis::NoMemory(lack)),
    }
    Ok(())
}

/// The table of this name, which the row of this number names first.
fn fetch_table<H: Shelf>(
    alloc: Global,
    name: &Name,
    number: u32,
    shelf: &mut H,
) -> Result<AnyTable, NoBasis>
    ensures table { (at : Files) → H.agrees shelf.new at → IfOk result (IsTableNamed at name.now) }
    ensures bad { (at : Files) → H.agrees shelf.new at → IfErr result (IfBad (IsBadTableFile at name.now number)) }
    ensures agreed { (at : Files) → H.agrees shelf.new at → H.agrees shelf.old at }
    ensures failed { IsErrOf result NoBasis.ReadFault → Rose (H.faults shelf.old) (H.faults shelf.new) }
    // Where the shelf failed this is told, and nothing else.
    ensures counted { H.faults shelf.old < H.faults shelf.new → IsErrOf result NoBasis.ReadFault }
    ensures later { H.faults shelf.old ≤ H.faults shelf.new }
    ensures asked { H.asked shelf.new ≡ name.now ∷ H.asked shelf.old }
    ensures stays { H.files shelf.new ≡ H.files shelf.old }
{
    let bytes = fetch_file(alloc, name, number, shelf)?;
    match read_any(alloc, bytes.as_slice()) {
        Ok(table) => Ok(table),
        Err(fault) => Err(no_table(alloc, name, fault)),
    }
}

/// The answer that a table file has a fault.
fn no_table(alloc: Global, name: &Name, fault: TableFault) -> NoBasis
    requires { IsFaultOfAny fault }
    ensures { TellsTable name.now fault result }
{
    match fault {
        TableFault::Bad { at, kind } => bad_file(alloc, name, at, word_of(kind)),
        TableFault::NoMemory(lack) => NoBasis::NoMemory(lack),
    }
}

/// The word for what is wrong with a table file.
fn word_of(kind: TableKind) -> BasisWord
    requires { IsOfAny kind }
    ensures { result ≡ word_of kind }
{
    match kind {
        TableKind::NotDocument => BasisWord::NotDocument,
        TableKind::NoTable => BasisWord::NoTable,
        // It comes from no call of `read_any`.
        TableKind::Select => unreachable!(),
        TableKind::Scaled => BasisWord::Scaled,
        TableKind::BadAge => BasisWord::BadAge,
        TableKind::AgeGap => BasisWord::AgeGap,
        TableKind::BadRate => BasisWord::BadRate,
        TableKind::BadDuration => BasisWord::BadDuration,
        TableKind::NoUltimate => BasisWord::NoUltimate,
        TableKind::UltimateGap => BasisWord::UltimateGap,
    }
}
