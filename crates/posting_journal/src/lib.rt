//! An append-only journal of bodies of 64 bytes on a disk. A body that was acknowledged outlives every crash.
#![tactic(auto)]

mod appending;
mod creation;
mod faults;
mod journal;
mod judging;
mod laws;
mod layout;
mod opening;
mod pieces;
mod reading;
mod scanning;
mod starting;
mod worked;
mod writing;

pub use faults::{DiskFault, JournalCause, JournalFault};
pub use journal::Journal;
pub use laws::{files_open_or_show_why, one_list_of_bodies, refused_files_open_to_none};
pub use pieces::Stretch;
pub use worked::{creations_by_hand, journals_by_hand, refused_files_by_hand};
