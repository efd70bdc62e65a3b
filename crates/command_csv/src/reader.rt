// A script, read row by row.
ghost use Rattle.std.specs.Prelude.{◌≡◌, ◌≤◌, List, [], ◌∷◌, length, IfOk, IfErr, Result};
ghost use Rattle.memory_requests.specs.Evidence.{a_refusal};
ghost use Rattle.command_csv.specs.Names.{ALane};
ghost use Rattle.command_csv.specs.Answers.{GivesScript, IsScriptAnswer};
ghost use Rattle.command_csv.specs.Reads.{AreLineRows, Reads, lanes_up_to, last_lane, lines_of as lines_among, valuations_in};
ghost use Rattle.command_csv.specs.Rows.{rows_of as all_rows};
ghost use Rattle.command_csv.specs.Cause.{HasScriptCause};
ghost use Rattle.command_csv.specs.declared.fault.ScriptFault.{ScriptFault as AFault};

use crate::fault::ScriptFault;
use crate::fields::LAST_LANE;
use crate::row::{ClerkLine, read_row};
use csv::ByteRecord;
use memory_requests::{next_row, push, rows_of};
use policy_types::{Lane, Line, Lines, Script};
use std::alloc::Global;

/// Reads a script of at most 16 MiB: its lanes with their lines. Memory is asked for one row at a time and for the
/// lines, twice for these while they are distributed to the lanes.
///
/// # Errors
///
/// The first row, and its first field, that don't fit; or that memory was refused.
pub fn read_script(alloc: Global, bytes: &[u8]) -> Result<Script, ScriptFault>
    requires { length bytes.now ≤ 16777216 }
    ensures ok { IfOk result (Reads bytes.now) }
    ensures fault { IfErr result (HasScriptCause bytes.now) }
    // Whatever result is due is returned, unless memory is refused.
    ensures due { (answer : Result (List ALane) AFault) → IsScriptAnswer bytes.now answer
        → GivesScript result answer }
{
    lanes_in(alloc, bytes)
}

// The lanes of all rows.
fn lanes_in(alloc: Global, bytes: &[u8]) -> Result<Script, ScriptFault>
    requires { length bytes.now ≤ 16777216 }
    ensures ok { IfOk result (Reads bytes.now) }
    ensures fault { IfErr result (HasScriptCause bytes.now) }
{
    let entries = read_lines(alloc, bytes)?;
    script_of(alloc, entries.as_slice())
}

// The lines of all rows.
fn read_lines(alloc: Global, bytes: &[u8]) -> Result<Vec<ClerkLine>, ScriptFault>
    requires { length bytes.now ≤ 16777216 }
    ensures ok { IfOk result (λ entries. AreLineRows (all_rows bytes.now) entries.items) }
    ensures fault { IfErr result (HasScriptCause bytes.now) }
{
    let mut rows = rows_of(alloc, bytes)?;
    let mut row = ByteRecord::new(alloc);
    let mut entries = Vec::new(alloc);
    let mut count: u32 = 0;
    let mut valuations: u32 = 0;
    while next_row(&mut rows, &mut row)? {
        count += 1;
        match read_row(&row, valuations) {
            Ok(entry) => {
                valuations += valuations_of(&entry.line);
                push(&mut entries, entry)?;
            }
            Err(field) => return Err(ScriptFault::BadRow { row: count, field }),
        }
    }
    Ok(entries)
}

// 1 for a valuation, 0 for another line.
fn valuations_of(line: &Line) -> u32
    ensures { result ≡ valuations_in (line.now ∷ []) }
{
    match line {
        Line::Value { .. } => 1,
        _ => 0,
    }
}

// The script with all lanes.
fn script_of(alloc: Global, entries: &[ClerkLine]) -> Result<Script, ScriptFault>
    ensures ok { IfOk result (λ script. script ≡ lanes_up_to last_lane entries.now) }
    ensures fault { IfErr result (λ fault. fault ≡ (ScriptFault.NoMemory a_refusal)) }
{
    let mut lanes = Vec::new(alloc);
    for before in 0..LAST_LANE {
        let number = before + 1;
        let lines = lines_of(alloc, entries, number)?;
        if !lines.is_empty() {
            push(
                &mut lanes,
                Lane {
                    number,
                    lines: Lines::new(lines),
                },
            )?;
        }
    }
    Ok(Script::new(lanes))
}

// A lane's lines.
fn lines_of(alloc: Global, entries: &[ClerkLine], clerk: u8) -> Result<Vec<Line>, ScriptFault>
    ensures ok { IfOk result (λ lines. lines.items ≡ lines_among clerk entries.now) }
    ensures fault { IfErr result (λ fault. fault ≡ (ScriptFault.NoMemory a_refusal)) }
{
    let mut lines = Vec::new(alloc);
    for entry in entries {
        if entry.clerk == clerk {
            push(&mut lines, entry.line)?;
        }
    }
    Ok(lines)
}
