//! The modes that print the journal's books, all policies and the balances or the entries of one policy; and the mode
//! that saves a checkpoint. They read the journal alone, or also a second disk, which holds a checkpoint of it.
#![tactic(auto)]

mod accounts;
mod alone;
mod checkpointing;
mod finished;
mod laws;
mod reopened;
mod rereading;
mod stating;
mod worked;

pub use accounts::account;
pub use checkpointing::checkpoint;
pub use finished::FinishedKept;
pub use laws::states_the_same;
pub use rereading::Account;
pub use stating::{state, state_kept};
pub use worked::{
    an_empty_file_is_kept, an_empty_file_is_stated, balances_are_added, no_journal_is_stated,
};
