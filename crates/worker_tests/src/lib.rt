//! Tests of several workers over one list.
#![tactic(auto)]

#[cfg(test)]
mod parallel_value_tests;
