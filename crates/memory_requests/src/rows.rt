// Rows of a CSV file whose bytes lie in memory.
ghost use Rattle.std.specs.Prelude.{◌≡◌, ◌≤◌, [], true, length, Some, IfOk, OnOk};
ghost use Rattle.csv.specs.Reading.{ReadRecord, Ready, error_kind, is_flexible, reader_trim, stops_reader, took_first};
ghost use Rattle.csv.specs.Records.{fields_of, partial_of};
ghost use Rattle.csv.specs.declared.reader.Trim.TheVariants as trim;
ghost use Rattle.memory_requests.specs.Limits.{most_fields};
ghost use Rattle.memory_requests.specs.Rows.{HasReadNothing};

use crate::evidence::NoMemory;
use csv::{ByteRecord, Error, Reader, ReaderBuilder};
use std::alloc::Global;

/// A reader of all rows, of any lengths. It has a header row, which is no row of the file: else it would take the first
/// row for one, and keep it twice beside itself.
pub fn rows_of(alloc: Global, bytes: &[u8]) -> Result<Reader<&[u8]>, NoMemory>
    ensures start { IfOk result (HasReadNothing bytes.now) }
{
    let mut rows = ReaderBuilder::new()
        .flexible(true)
        .from_reader(alloc, bytes);
    match rows.set_byte_headers(ByteRecord::new(alloc)) {
        Ok(()) => Ok(rows),
        Err(_) => Err(NoMemory::refused()),
    }
}

/// A row with room for so many fields.
pub fn row_with_room(alloc: Global, fields: usize) -> Result<ByteRecord, NoMemory>
    requires few { fields ≤ most_fields }
    ensures fields { IfOk result (λ row. fields_of row ≡ []) }
{
    match ByteRecord::with_capacity(alloc, 0, fields) {
        Ok(made) => Ok(made),
        Err(_) => Err(NoMemory::refused()),
    }
}

/// Reads the next row, and tells whether there was one.
pub fn next_row(rows: &mut Reader<&[u8]>, row: &mut ByteRecord) -> Result<bool, NoMemory>
    requires ready { Ready rows.old }
    requires flexible { is_flexible rows.old ≡ true }
    ensures ready { (reader_trim rows.old ≡ trim.None) → OnOk result (took_first rows.new ≡ true) }
    ensures reads { IfOk result (λ found. (reader_trim rows.old ≡ trim.None)
        → ReadRecord (λ left. Some left.now) rows.old rows.new found (fields_of row.new)) }
    ensures flexible { OnOk result (is_flexible rows.new ≡ true) }
{
    match rows.read_byte_record(row) {
        Ok(found) => Ok(found),
        Err(error) => Err(lack_of(error)),
    }
}

// What an error of such a reader comes to. It is one of memory, or of bytes that can't be read; and bytes in memory can.
fn lack_of(error: Error) -> NoMemory
    requires { stops_reader (error_kind error) ≡ true }
{
    let _error = error;
    NoMemory::refused()
}
