//! Tests of basis files, and of a basis on a shelf.
#![tactic(auto)]

#[cfg(test)]
mod basis_book_tests;
#[cfg(test)]
mod basis_shelf_tests;
