//! The basis file of an insurer: which mortality table and rate of interest hold from which day of issue.
#![tactic(auto)]

mod basis;
mod fault;
mod fields;
mod file;
mod judging;
mod name;
mod points;
mod reading;
mod row;
mod worked;

pub use basis::Basis;
pub use fault::{BasisFault, NoSuchTable};
pub use file::{LONGEST_FILE, read_basis};
pub use name::Name;
pub use row::{BasisRow, BasisRows};
pub use worked::{a_basis_by_hand, refused_bases_by_hand};
