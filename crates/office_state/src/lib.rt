//! The office: its journal, what it keeps of the accepted commands, and the history of its turns.
#![tactic(auto)]

mod accepted_list;
mod answer;
mod batches;
mod books;
mod faults;
mod filling;
mod held;
mod keeping;
mod laws;
mod opening;
mod pins;
mod posting;
mod reading;
mod recording;
mod state;
mod trimming;
pub mod version_laws;
mod worked;

pub use answer::Answer;
pub use batches::PolicyBatch;
pub use faults::{StartCause, StartFault, cause_of, cause_of_replay};
pub use filling::POLICIES_PER_READ;
pub use held::{Held, PinInfo};
pub use laws::{
    files_open_or_show_why, one_cause_of_refusal, one_list_of_commands, refused_files_open_to_none,
};
pub use state::OfficeState;
pub use worked::{faults_by_hand, offices_by_hand, shown_by_hand};
