// Worked valuations, each a theorem over the definitions alone.
ghost use Rattle.report_text.specs.Worked.{BlocksByMeasure, DeficiencyRows, DeficiencyTotals, NoPolicies, PaidUpRows, TwoPolicies, WorkedRows, WorkedTotals};

/// Rows, totals and whole valuations of a few policies.
pub fn worked_valuations()
    ensures rows { WorkedRows }
    ensures paid_up { PaidUpRows }
    ensures deficiency_rows { DeficiencyRows }
    ensures totals { WorkedTotals }
    ensures deficiency_totals { DeficiencyTotals }
    ensures none { NoPolicies }
    ensures two { TwoPolicies }
    ensures measures { BlocksByMeasure }
{}
