//! Tests of the lock, of sets of watchers, and of the office, alone and shared.
#![tactic(auto)]

#[cfg(test)]
mod office_desk;
#[cfg(test)]
mod office_fault_tests;
#[cfg(test)]
mod office_pin_tests;
#[cfg(test)]
mod office_posting_tests;
#[cfg(test)]
mod office_version_tests;
#[cfg(test)]
mod office_watcher_tests;
#[cfg(test)]
mod policies;
#[cfg(test)]
mod shared_callers;
#[cfg(test)]
mod shared_order_tests;
#[cfg(test)]
mod shared_pin_tests;
#[cfg(test)]
mod shared_watcher_tests;
#[cfg(test)]
mod turn_lock_tests;
#[cfg(test)]
mod watcher_set_tests;
