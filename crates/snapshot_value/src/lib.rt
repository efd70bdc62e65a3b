//! What is made of the policies at a pinned position, a list or a valuation, while other callers go on posting.
#![tactic(auto)]

mod listing;
mod reader;
mod reading;
mod shares;
mod valuation;
mod valuing;
mod worker;
mod worksheet;

pub use listing::policies;
pub use reader::Reader;
pub use reading::read_pinned;
pub use shares::{NO_LANE, POLICIES_TO_A_WORKER};
pub use valuation::{Policies, Query, Valuation, ValueFault};
pub use valuing::value;
