//! The modes that value the policies of the disk's file, by the basis on the shelf: `value`, what each is worth on a
//! day, after as many commands as are asked for; and `project`, what they are expected to pay and to be paid, year by
//! year.
#![tactic(auto)]

mod projecting;
mod valuing;
mod worked;
mod worked_projections;

pub use projecting::project;
pub use valuing::value;
pub use worked::{an_empty_file_is_valued, valuations_by_hand};
pub use worked_projections::{an_empty_file_is_projected, projections_by_hand};
