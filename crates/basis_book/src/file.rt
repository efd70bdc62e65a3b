ghost use Rattle.std.specs.Prelude.{◌≡◌, ◌==◌, ◌+◌, ◌≤◌, ℕ, List, length, IfOk, IfErr, Result};
ghost use Rattle.std.specs.List.{count_by};
ghost use Rattle.csv.specs.Records.{fields_of};
ghost use Rattle.basis_book.specs.Dated.{AreBounded};
ghost use Rattle.basis_book.specs.declared.row.BasisRow.{BasisRow};
ghost use Rattle.basis_book.specs.declared.fault.BasisFault.{BasisFault as AFault};
ghost use Rattle.basis_book.specs.inside.Fields.{AreThree};
ghost use Rattle.basis_book.specs.File.{GivesBook, HasRows, IsBasisFile, IsBookAnswer, IsFileFault};
ghost use Rattle.basis_book.specs.inside.Judged.{Judged};

use crate::fault::BasisFault;
use crate::fields::BasisFields;
use crate::reading::Reading;
use crate::row::BasisRows;
use csv::ByteRecord;
use memory_requests::{next_row, row_with_room, rows_of};
use policy_types::NoMemory;
use std::alloc::Global;

/// The longest basis file that is read, in bytes.
pub const LONGEST_FILE: usize = 4_194_304;

/// The rows of a basis file with these bytes.
pub fn read_basis(alloc: Global, bytes: &[u8]) -> Result<BasisRows, BasisFault>
    requires { length bytes.now ≤ LONGEST_FILE }
    ensures rows { IfOk result (IsBasisFile bytes.now) }
    ensures bounded { IfOk result AreBounded }
    ensures faults { IfErr result (IsFileFault bytes.now) }
    // Whatever result is due is returned, unless memory is refused.
    ensures due { (answer : Result (List BasisRow) AFault)
        → IsBookAnswer bytes.now answer → GivesBook result answer }
{
    read_rows(alloc, bytes)
}

fn read_rows(alloc: Global, bytes: &[u8]) -> Result<BasisRows, BasisFault>
    requires { length bytes.now ≤ LONGEST_FILE }
    ensures rows { IfOk result (IsBasisFile bytes.now) }
    ensures bounded { IfOk result AreBounded }
    ensures faults { IfErr result (IsFileFault bytes.now) }
{
    match judge_rows(alloc, bytes) {
        Ok(reading) => reading.finish(),
        Err(lack) => Err(BasisFault::NoMemory(lack)),
    }
}

fn three_fields(row: &ByteRecord) -> Option<BasisFields<'_>>
    ensures { AreThree (fields_of row.now) result }
{
    if row.len() != 3 {
        return None;
    }
    Some(BasisFields {
        day: row.get(0)?,
        table: row.get(1)?,
        points: row.get(2)?,
    })
}

/// The most fields that a row can have: one more than there are commas.
fn most_fields(bytes: &[u8]) -> usize
    ensures { result ≡ count_by (λ byte. byte == 44) bytes.now + 1 }
{
    bytes.iter().filter(|byte| **byte == b',').count() + 1
}

/// Reads all rows. One record serves for all of them, and has the capacity for the fields of each from the start, so
/// that it never grows to twice what is needed.
fn judge_rows(alloc: Global, bytes: &[u8]) -> Result<Reading, NoMemory>
    requires { length bytes.now ≤ LONGEST_FILE }
    ensures { IfOk result (λ reading.
        (rows : List (List (List ℕ))) × HasRows bytes.now rows × Judged rows reading) }
{
    let mut rows = rows_of(alloc, bytes)?;
    let mut row = row_with_room(alloc, most_fields(bytes))?;
    let mut reading = Reading::new(alloc);
    while next_row(&mut rows, &mut row)? {
        reading.add(alloc, three_fields(&row))?;
    }
    Ok(reading)
}
