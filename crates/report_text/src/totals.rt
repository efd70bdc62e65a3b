// The totals of a valuation's rows.
ghost use Rattle.std.specs.Prelude.{◌≡◌, ◌+◌, ◌<◌, ◌≤◌, ◌++◌, ◌^◌, length, IfOk, OnOk};
ghost use Rattle.report_text.specs.Names.{most_commands, behind_commas};
ghost use Rattle.report_text.specs.Block.{total_of, totals_by, sum_fields, total_text, IsSummable, AreSummable};

use policy_types::NoMemory;
use policy_value::{Measure, Rows, Worth};
use std::alloc::Global;
use text_lines::{LineWriter, Text};

/// The sums of the bounds of the reserve and of the minimum reserve, in cents, and the number of rows without bounds.
#[derive(Clone, Copy, PartialEq, Eq, Debug)]
pub struct Totals {
    pub lower: u64,
    pub upper: u64,
    pub lower_minimum: u64,
    pub upper_minimum: u64,
    pub unvalued: u32,
}

impl Totals {
    /// The totals of the rows.
    pub fn of(rows: &Rows) -> Totals
        requires few { length rows.now ≤ most_commands }
        requires bounded { AreSummable rows.now }
        ensures lower { result.lower ≡ total_of (λ t. t.lower) rows.now }
        ensures upper { result.upper ≡ total_of (λ t. t.upper) rows.now }
        ensures lower_minimum { result.lower_minimum ≡ total_of (λ t. t.lower_minimum) rows.now }
        ensures upper_minimum { result.upper_minimum ≡ total_of (λ t. t.upper_minimum) rows.now }
        ensures unvalued { result.unvalued ≡ total_of (λ t. t.unvalued) rows.now }
        ensures most { (result.lower ≤ 80000000000000000) × (result.upper ≤ 80000000000000000) }
        ensures most_minimum { (result.lower_minimum ≤ 80000000000000000) × (result.upper_minimum ≤ 80000000000000000) }
    {
        let mut totals = Totals {
            lower: 0,
            upper: 0,
            lower_minimum: 0,
            upper_minimum: 0,
            unvalued: 0,
        };
        for row in rows.as_slice() {
            totals.add(row.worth);
        }
        totals
    }

    // Adds a row.
    fn add(&mut self, worth: Worth)
        requires bounded { IsSummable worth }
        requires sums { (self.old.lower < 2 ^ 63) × (self.old.upper < 2 ^ 63) }
        requires minimums { (self.old.lower_minimum < 2 ^ 63) × (self.old.upper_minimum < 2 ^ 63) }
        requires count { self.old.unvalued < most_commands }
        ensures lower { self.new.lower ≡ self.old.lower + (totals_by worth).lower }
        ensures upper { self.new.upper ≡ self.old.upper + (totals_by worth).upper }
        ensures lower_minimum { self.new.lower_minimum ≡ self.old.lower_minimum + (totals_by worth).lower_minimum }
        ensures upper_minimum { self.new.upper_minimum ≡ self.old.upper_minimum + (totals_by worth).upper_minimum }
        ensures unvalued { self.new.unvalued ≡ self.old.unvalued + (totals_by worth).unvalued }
    {
        let (reserve, minimum) = match worth {
            Worth::Bounds { lo, hi } => ((lo, hi), (lo, hi)),
            Worth::Both {
                lo,
                hi,
                min_lo,
                min_hi,
                test: _,
            } => ((lo, hi), (min_lo, min_hi)),
            Worth::Word(_) => {
                self.unvalued += 1;
                return;
            }
        };
        self.lower += reserve.0;
        self.upper += reserve.1;
        self.lower_minimum += minimum.0;
        self.upper_minimum += minimum.1;
    }
}

/// The total of a valuation, such as `total,127.22,127.23,0`; by the measure of deficiency it also has the sums of
/// the minimum reserves, such as `total,127.22,127.23,280.00,280.00,0`. It ends with a line feed.
pub fn print_total(alloc: Global, rows: &Rows, measure: Measure) -> Result<Text, NoMemory>
    requires few { length rows.now ≤ most_commands }
    requires bounded { AreSummable rows.now }
    ensures { IfOk result (λ text. text ≡ total_text measure rows.now) }
{
    let mut lines = LineWriter::new(alloc);
    write_total(&mut lines, rows, measure)?;
    Ok(lines.into_text())
}

// Adds the total.
#[tactic(auto, unfolding(crate::specs::Block::total_text))]
pub fn write_total(lines: &mut LineWriter, rows: &Rows, measure: Measure) -> Result<(), NoMemory>
    requires few { length rows.now ≤ most_commands }
    requires bounded { AreSummable rows.now }
    ensures { OnOk result (lines.new ≡ lines.old ++ total_text measure rows.now) }
{
    lines.first("total")?;
    write_sums(lines, rows, measure)?;
    lines.end()
}

// Adds the sums, and the number of rows without bounds.
fn write_sums(lines: &mut LineWriter, rows: &Rows, measure: Measure) -> Result<(), NoMemory>
    requires few { length rows.now ≤ most_commands }
    requires bounded { AreSummable rows.now }
    ensures { OnOk result (lines.new ≡ lines.old ++ behind_commas (sum_fields measure rows.now)) }
{
    let totals = Totals::of(rows);
    lines.cents(totals.lower as i64)?;
    lines.cents(totals.upper as i64)?;
    match measure {
        Measure::Terminal | Measure::Mean => lines.number(totals.unvalued),
        Measure::Deficiency => {
            lines.cents(totals.lower_minimum as i64)?;
            lines.cents(totals.upper_minimum as i64)?;
            lines.number(totals.unvalued)
        }
    }
}
