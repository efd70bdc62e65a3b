//! Fetches a basis from a shelf: the basis file, and each table that it names.
#![tactic(auto)]

mod fault;
mod fetching;
mod laws;
mod rows;
mod shelf_file;
mod tables;
mod telling;
mod worked;

pub use fault::{BadBasis, BasisWord, NoBasis};
pub use fetching::fetch_basis;
pub use laws::{
    a_basis_has_one_answer, a_file_has_one_answer, files_spell_or_show_why,
    shelves_have_a_basis_or_show_why,
};
pub use telling::bad_basis_line;
pub use worked::shelves_by_hand;
