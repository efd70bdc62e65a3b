//! Select and ultimate mortality tables: for each issue age the rates of death of its select period, and after them
//! those of the ultimate table.
#![tactic(auto)]

mod any;
mod joining;
mod rows;
mod table;
mod worked;

pub use any::AnyTable;
pub use rows::SelectRows;
pub use table::SelectTable;
pub use worked::{
    rates_above_the_select_ages, rates_of_late_select_ages, rates_of_the_first_issue_age,
    rates_of_the_second_issue_age, select_rates_that_make_tables,
};
