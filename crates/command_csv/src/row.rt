// A row, read field by field.
ghost use Rattle.std.specs.Prelude.{◌≡◌, IfOk, IfErr, IfSome, IfNone};
ghost use Rattle.csv.specs.Records.{fields_of};
ghost use Rattle.command_csv.specs.Reads.{IsFirstBadField};
ghost use Rattle.command_csv.specs.inside.Cursor.{IsNextRow, left_of};

use crate::fields::LineFields;
use csv::ByteRecord;
use policy_types::Line;

/// A line, and the number of its lane.
#[derive(Clone, Copy)]
pub struct ClerkLine {
    pub clerk: u8,
    pub line: Line,
}

/// The line of a row that comes after so many valuations, or the place, counted from 1, of the first field that
/// doesn't fit.
pub fn read_row(row: &ByteRecord, valuations: u32) -> Result<ClerkLine, u32>
    ensures ok { IfOk result (IsNextRow valuations (fields_of row.now)) }
    ensures fault { IfErr result (IsFirstBadField valuations (fields_of row.now)) }
{
    let mut fields = LineFields::new(row);
    match fields.line(valuations) {
        Some(line) => Ok(line),
        None => Err(fields.asked),
    }
}

impl LineFields<'_> {
    /// The line that all fields spell. If they spell none, the field that was asked for last is the first that
    /// doesn't fit.
    fn line(&mut self, valuations: u32) -> Option<ClerkLine>
        requires start { self.old.asked ≡ 0 }
        ensures some { IfSome result (IsNextRow valuations (left_of self.old)) }
        ensures none { IfNone result (IsFirstBadField valuations (left_of self.old) self.new.asked) }
    {
        let clerk = self.clerk()?;
        let kind = self.kind(valuations)?;
        let line = self.of_kind(kind)?;
        self.end()?;
        Some(ClerkLine { clerk, line })
    }
}
