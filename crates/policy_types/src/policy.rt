use crate::command::Plan;

/// Where a policy stands in its life.
#[derive(Clone, Copy, PartialEq, Eq, Debug)]
pub enum Status {
    InForce,
    Lapsed,
    Claimed,
    Matured,
    Expired,
    Settled,
    /// In force for a lower amount of insurance, and no more premiums fall due.
    PaidUp,
}

/// A policy as the accepted commands have left it.
#[derive(Clone, Copy, PartialEq, Eq, Debug)]
pub struct Policy {
    pub id: u32,
    pub plan: Plan,
    /// Age in years at issue.
    pub age: u8,
    /// Years of the term or of the premiums; 0 for whole life.
    pub years: u8,
    /// Amount of insurance, in cents.
    pub amount: u64,
    /// Annual premium, in cents.
    pub premium: u64,
    /// Day of issue, in days since 1970-01-01.
    pub issued: i32,
    /// Day of the last accepted command, in days since 1970-01-01.
    pub last: i32,
    /// Number of annual premiums paid.
    pub paid: u8,
    pub status: Status,
    /// What is still to be paid out of a claim or a maturity, in cents.
    pub outstanding: u64,
}
