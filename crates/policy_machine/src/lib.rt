//! The rules of the office: what a command makes of a policy, the book that accepted commands leave, and which
//! histories of turns are legal.
#![tactic(auto)]

mod benefits;
mod checks;
mod contract;
mod decision;
mod judging;
mod laws;
mod ledgers;
mod premiums;
mod reduction;
mod soundness;
mod terms;
mod upgrading;
pub mod worked;

pub use decision::decide;
pub use judging::{judge, upgrade_place};
pub use laws::{books_are_sound, contracts_are_kept};
pub use ledgers::{ledgers_add_up, ledgers_grow_by_a_booking, ledgers_stay_within};
pub use soundness::is_sound;
pub use upgrading::{
    cover_never_rises, old_journals_mean_the_same, upgrades_change_nothing, upgrades_come_once,
};
