//! Tests of valuations at a shared office and of the lanes of a script.
#![tactic(auto)]

#[cfg(test)]
mod forty_commands;
#[cfg(test)]
mod lane_gates;
#[cfg(test)]
mod lane_runner_tests;
#[cfg(test)]
mod lane_trials;
#[cfg(test)]
mod line_words;
#[cfg(test)]
mod offices;
#[cfg(test)]
mod projection_lanes;
#[cfg(test)]
mod projection_meeting;
#[cfg(test)]
mod projection_pins;
#[cfg(test)]
mod projection_tests;
#[cfg(test)]
mod snapshot_meeting;
#[cfg(test)]
mod snapshot_positions;
#[cfg(test)]
mod snapshot_value_tests;
