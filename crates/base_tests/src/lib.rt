//! Tests of the lowest crates: commands, cents, days, the rules, the accounts, the texts of entries, generated
//! scripts, the versions of a book.
#![tactic(auto)]

#[cfg(test)]
mod book_trials;
#[cfg(test)]
mod life_dates_tests;
#[cfg(test)]
mod load_maker_tests;
#[cfg(test)]
mod money_core_tests;
#[cfg(test)]
mod money_ledgers_tests;
#[cfg(test)]
mod paid_up_rows;
#[cfg(test)]
mod policy_machine_rows;
#[cfg(test)]
mod policy_machine_tests;
#[cfg(test)]
mod policy_types_tests;
#[cfg(test)]
mod statements_tests;
#[cfg(test)]
mod text_lines_tests;
#[cfg(test)]
mod versioned_book_tests;
