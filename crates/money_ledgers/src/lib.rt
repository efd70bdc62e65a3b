//! The four accounts of the office: cash, premiums earned, benefits incurred and benefits payable.
//!
//! Every accepted command is booked twice, on two accounts and with opposite signs, so the balances add up to 0.
#![tactic(auto)]

mod ledger;

pub use ledger::Ledger;
