use basis_book::Basis;
use policy_types::{NoMemory, PinRefusal, Slice};
use policy_value::{Measure, Rows};

/// By what the policies are valued.
#[derive(Clone, Copy)]
pub struct Query<'a> {
    pub basis: &'a Basis,
    /// The day on which they are valued, in days since 1970-01-01.
    pub on: i32,
    /// Which reserve is computed.
    pub measure: Measure,
    /// How many workers are asked for, from 1 to 64; at most sixteen are used.
    pub workers: u8,
}

/// The rows of the policies after `position` commands, in order of issue.
#[derive(Drop)]
pub struct Valuation {
    /// The position that was pinned.
    pub position: u32,
    /// The day on which they are valued, in days since 1970-01-01.
    pub on: i32,
    /// Which reserve was computed.
    pub measure: Measure,
    pub rows: Rows,
}

/// The policies after `position` commands, in order of issue.
#[derive(Drop)]
pub struct Policies {
    /// The position that was pinned.
    pub position: u32,
    pub book: Slice,
}

/// Why there is no valuation, or no list of policies.
#[derive(Clone, Copy, PartialEq, Eq, Debug)]
pub enum ValueFault {
    /// The position couldn't be pinned.
    Pin(PinRefusal),
    NoMemory(NoMemory),
}
