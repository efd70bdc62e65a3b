// The whole text of a valuation.
ghost use Rattle.std.specs.Prelude.{◌≡◌, ◌≤◌, ◌++◌, length, IfOk, OnOk};
ghost use Rattle.report_text.specs.Names.{IsDay, most_commands, behind_commas};
ghost use Rattle.report_text.specs.Block.{heading_text, block_text, AreSummable};
ghost use Rattle.report_text.specs.inside.Fields.{measure_fields};

use crate::rows::write_row;
use crate::totals::write_total;
use itoa::Buffer;
use policy_types::NoMemory;
use policy_value::{Measure, Rows};
use std::alloc::Global;
use text_lines::{LineEnd, LineWriter, Text};

/// The whole text of a valuation. It begins with a line such as `1,value,2021-01-01,300,25`: the lane that asked for
/// it, its day, the position of the journal that is valued and the number of policies, and also `mean` or
/// `deficiency` if that is the measure. Then come the rows and the total.
///
/// A valuation that no lane asked for has the lane 0.
pub fn print_block(
    alloc: Global,
    lane: u8,
    on: i32,
    position: u32,
    measure: Measure,
    rows: &Rows,
) -> Result<Text, NoMemory>
    requires on { IsDay on }
    requires few { length rows.now ≤ most_commands }
    requires bounded { AreSummable rows.now }
    ensures { IfOk result (λ text. text ≡ block_text lane on position measure rows.now) }
{
    let mut lines = LineWriter::new(alloc);
    let policies = rows.as_slice().len() as u32;
    write_heading(&mut lines, lane, on, position, policies, measure)?;
    let mut line = LineEnd::new();
    for row in rows.as_slice() {
        write_row(&mut line, row);
        lines.line(&line)?;
    }
    write_total(&mut lines, rows, measure)?;
    Ok(lines.into_text())
}

// The line that says what was valued.
pub fn print_heading(
    alloc: Global,
    lane: u8,
    on: i32,
    position: u32,
    policies: u32,
    measure: Measure,
) -> Result<Text, NoMemory>
    requires { IsDay on }
    ensures { IfOk result (λ text. text ≡ heading_text lane on position policies measure) }
{
    let mut lines = LineWriter::new(alloc);
    write_heading(&mut lines, lane, on, position, policies, measure)?;
    Ok(lines.into_text())
}

// Adds the line that says what was valued.
#[tactic(auto, unfolding(crate::specs::Block::heading_text))]
fn write_heading(
    lines: &mut LineWriter,
    lane: u8,
    on: i32,
    position: u32,
    policies: u32,
    measure: Measure,
) -> Result<(), NoMemory>
    requires { IsDay on }
    ensures { OnOk result (lines.new ≡ lines.old ++ heading_text lane on position policies measure) }
{
    let mut buffer = Buffer::new();
    lines.first(buffer.format(lane))?;
    lines.word("value")?;
    lines.day(on)?;
    lines.number(position)?;
    lines.number(policies)?;
    write_measure(lines, measure)?;
    lines.end()
}

// Adds the measure, if it isn't the terminal reserve.
fn write_measure(lines: &mut LineWriter, measure: Measure) -> Result<(), NoMemory>
    ensures { OnOk result (lines.new ≡ lines.old ++ behind_commas (measure_fields measure)) }
{
    match measure {
        Measure::Terminal => Ok(()),
        Measure::Mean => lines.word("mean"),
        Measure::Deficiency => lines.word("deficiency"),
    }
}
