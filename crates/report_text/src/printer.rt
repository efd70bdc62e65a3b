// One of the workers that write the rows of a valuation.
ghost use Rattle.std.specs.Prelude.{◌≡◌, ⊤, IfOk};
ghost use Rattle.std.specs.List.{flat_map};
ghost use Rattle.report_text.specs.Block.{row_text};
ghost use Rattle.report_text.specs.Parts.{IsTextOfPart};

use crate::rows::write_row;
use parallel_value::Piece;
use policy_types::NoMemory;
use policy_value::Row;
use std::alloc::Global;
use text_lines::{LineEnd, LineWriter, Text};

/// Consecutive rows of a valuation.
#[derive(Clone, Copy)]
pub struct RowPart<'a> {
    pub rows: &'a [Row],
}

/// It writes the rows of one part after another.
#[derive(Clone, Copy)]
pub struct RowPrinter {
    pub alloc: Global,
}

impl<'a> Piece<RowPart<'a>, Result<Text, NoMemory>> for RowPrinter {
    ghost takes = { λ printer part. ⊤ };

    ghost gives = { λ printer part text. IsTextOfPart part text };

    fn one(&mut self, part: &RowPart<'a>) -> Result<Text, NoMemory> {
        print_rows(self.alloc, part.rows)
    }
}

// The rows of policies.
fn print_rows(alloc: Global, rows: &[Row]) -> Result<Text, NoMemory>
    ensures { IfOk result (λ text. text ≡ flat_map row_text rows.now) }
{
    let mut lines = LineWriter::new(alloc);
    let mut line = LineEnd::new();
    for row in rows {
        write_row(&mut line, row);
        lines.line(&line)?;
    }
    Ok(lines.into_text())
}
