//! Rates worked by hand.

ghost use Rattle.select_rates.specs.Select.{AreSelected};
ghost use Rattle.select_rates.specs.Worked.{selected_q, late_q, FirstIssueAge, SecondIssueAge, AboveSelectAges, LateSelectAges};

/// The rates of a life selected at the first issue age.
pub fn rates_of_the_first_issue_age()
    ensures { FirstIssueAge }
{}

/// The rates of a life selected at the second issue age.
pub fn rates_of_the_second_issue_age()
    ensures { SecondIssueAge }
{}

/// The rates of a life above the select ages.
pub fn rates_above_the_select_ages()
    ensures { AboveSelectAges }
{}

/// The rates of lives selected late in the ultimate table.
pub fn rates_of_late_select_ages()
    ensures { LateSelectAges }
{}

/// The select rates of both examples make tables with the ultimate one.
pub fn select_rates_that_make_tables()
    ensures two { AreSelected selected_q }
    ensures late { AreSelected late_q }
{}
