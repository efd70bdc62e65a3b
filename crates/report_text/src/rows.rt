// The rows of a valuation, each written from its end to its start.
ghost use Rattle.std.specs.Prelude.{◌≡◌, ◌≤◌, ◌+◌, ◌++◌, ◌∷◌, [], length, IfOk};
ghost use Rattle.report_text.specs.Names.{cents_text, behind_commas, Word};
ghost use Rattle.report_text.specs.Block.{row_text, worth_fields};
ghost use Rattle.report_text.specs.inside.Fields.{adequacy_word};

use policy_types::NoMemory;
use policy_value::{Adequacy, NotValued, Row, Worth};
use std::alloc::Global;
use text_lines::{LineEnd, LineWriter, Text};

/// The row of a policy, such as `row,7001,inforce,1,127.22,127.23`; with the minimum reserve, such as
/// `row,7001,inforce,1,127.22,127.23,280.00,280.00,short`; or with a word that says why it has no value, such as
/// `row,7001,inforce,0,pasttable`. It ends with a line feed.
pub fn print_row(alloc: Global, row: &Row) -> Result<Text, NoMemory>
    ensures { IfOk result (λ text. text ≡ row_text row.now) }
{
    let mut line = LineEnd::new();
    write_row(&mut line, row);
    let mut lines = LineWriter::new(alloc);
    lines.line(&line)?;
    Ok(lines.into_text())
}

// The row of a policy.
#[tactic(auto, unfolding(crate::specs::Block::row_text))]
pub fn write_row(line: &mut LineEnd, row: &Row)
    ensures { line.new ≡ row_text row.now }
{
    line.begin();
    write_worth(line, row.worth);
    line.number(row.t as u64);
    line.status(row.status);
    line.number(row.id as u64);
    line.put(b"row");
}

// Writes the bounds, and those of the minimum reserve, or the word.
fn write_worth(line: &mut LineEnd, worth: Worth)
    requires room { 103 + length line.old ≤ 256 }
    ensures written { line.new ≡ behind_commas (worth_fields worth) ++ line.old }
    ensures short { length line.new ≤ length line.old + 103 }
{
    match worth {
        Worth::Bounds { lo, hi } => write_bounds(line, lo, hi),
        Worth::Both {
            lo,
            hi,
            min_lo,
            min_hi,
            test,
        } => {
            write_adequacy(line, test);
            write_bounds(line, min_lo, min_hi);
            write_bounds(line, lo, hi);
        }
        Worth::Word(reason) => write_reason(line, reason),
    }
}

// Writes bounds in cents.
fn write_bounds(line: &mut LineEnd, lo: u64, hi: u64)
    requires room { 48 + length line.old ≤ 256 }
    ensures written { line.new ≡ behind_commas (cents_text lo ∷ cents_text hi ∷ []) ++ line.old }
    ensures short { length line.new ≤ length line.old + 48 }
{
    line.cents(hi);
    line.cents(lo);
}

// Writes the word that says how a premium compares with the net premium.
fn write_adequacy(line: &mut LineEnd, test: Adequacy)
    requires room { 7 + length line.old ≤ 256 }
    ensures written { line.new ≡ 44 ∷ (adequacy_word test ++ line.old) }
    ensures short { length line.new ≤ length line.old + 7 }
{
    match test {
        Adequacy::Short => line.field(b"short"),
        Adequacy::Enough => line.field(b"enough"),
        Adequacy::Close => line.field(b"close"),
    }
}

// Writes the word that says why a policy has no value.
fn write_reason(line: &mut LineEnd, reason: NotValued)
    requires room { 11 + length line.old ≤ 256 }
    ensures written { line.new ≡ behind_commas (worth_fields (Word reason)) ++ line.old }
    ensures short { length line.new ≤ length line.old + 11 }
{
    match reason {
        NotValued::NoBasis => line.field(b"nobasis"),
        NotValued::BelowTable => line.field(b"belowtable"),
        NotValued::PastTable => line.field(b"pasttable"),
        NotValued::RateHigh => line.field(b"ratehigh"),
    }
}
