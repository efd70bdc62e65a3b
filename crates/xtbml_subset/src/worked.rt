//! Worked table files, each a theorem over the definitions alone.

ghost use Rattle.xtbml_subset.specs.Worked.{BadRates, NoDocuments, NoTables, OtherTables, ThreeRates};
ghost use Rattle.xtbml_subset.specs.WorkedSelect.{OneIssueAge, SelectFaults};

/// A table of three rates.
pub fn a_table_by_hand()
    ensures { ThreeRates }
{}

/// A file of each fault.
pub fn refused_tables_by_hand()
    ensures documents { NoDocuments }
    ensures tables { NoTables }
    ensures others { OtherTables }
    ensures rates { BadRates }
{}

/// A select table of one issue age.
pub fn a_select_table_by_hand()
    ensures { OneIssueAge }
{}

/// A select table for each fault that only select tables have.
pub fn refused_select_tables_by_hand()
    ensures { SelectFaults }
{}
