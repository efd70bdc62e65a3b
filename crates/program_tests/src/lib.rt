//! Tests of the whole program, over devices in memory.
#![tactic(auto)]

#[cfg(test)]
mod cases;
#[cfg(test)]
mod devices;
#[cfg(test)]
mod disk_tests;
#[cfg(test)]
mod fault_tests;
#[cfg(test)]
mod gate_tests;
#[cfg(test)]
mod gates;
#[cfg(test)]
mod kept;
#[cfg(test)]
mod kept_crash_tests;
#[cfg(test)]
mod kept_tests;
#[cfg(test)]
mod lying_disk;
#[cfg(test)]
mod lying_disk_tests;
#[cfg(test)]
mod output_tests;
#[cfg(test)]
mod run_tests;
#[cfg(test)]
mod watcher_tests;
