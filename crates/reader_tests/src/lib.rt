//! Tests of the readers of scripts and of the arguments of the command line.
#![tactic(auto)]

#[cfg(test)]
mod command_csv_lines;
#[cfg(test)]
mod command_csv_tests;
#[cfg(test)]
mod life_args_tests;
