//! Tests of the values: shapes, present values, reserves, rows of a valuation and their text.
#![tactic(auto)]

#[cfg(test)]
mod bases;
#[cfg(test)]
mod cash_projection_tests;
#[cfg(test)]
mod crvm_reserve_tests;
#[cfg(test)]
mod deficiency_reserve_tests;
#[cfg(test)]
mod mean_reserve_tests;
#[cfg(test)]
mod plan_benefits_tests;
#[cfg(test)]
mod policy_cache_tests;
#[cfg(test)]
mod policy_measure_tests;
#[cfg(test)]
mod policy_rows;
#[cfg(test)]
mod policy_value_tests;
#[cfg(test)]
mod policy_word_tests;
#[cfg(test)]
mod present_value_tests;
#[cfg(test)]
mod projection_rows;
#[cfg(test)]
mod projection_sums_tests;
#[cfg(test)]
mod projection_text_tests;
#[cfg(test)]
mod report_text_tests;
#[cfg(test)]
mod select_value_tests;
