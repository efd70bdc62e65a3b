//! A second disk that holds the book at some position, so that opening does not replay the whole journal. The journal stays
//! the truth: a file that is no checkpoint counts as none.
#![tactic(auto)]

mod adding;
mod books;
mod faults;
mod front;
mod gates;
mod keeping;
pub mod laws;
mod numbered;
mod policies;
mod reopening;
mod saving;
mod snapshot;
mod starting;
mod store;
mod stored;
pub mod worked;

pub use books::Books;
pub use faults::{ReopenFault, StoreFault};
pub use reopening::{read_books, reopen, reopen_books};
pub use snapshot::Snapshot;
pub use store::Store;
