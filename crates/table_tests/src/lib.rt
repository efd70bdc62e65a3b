//! Tests of mortality tables: rates by age and by age at issue, and the files that they are read from.
#![tactic(auto)]

#[cfg(test)]
mod decimal_text_tests;
#[cfg(test)]
mod rate_table_tests;
#[cfg(test)]
mod select_rates_tests;
#[cfg(test)]
mod select_table_faults;
#[cfg(test)]
mod select_table_tests;
#[cfg(test)]
mod xtbml_subset_tests;
