// What several callers of this crate use.

/// The lane of a valuation or a list that no lane of a script asks for.
pub const NO_LANE: u8 = 0;

/// The number of policies for which a worker's thread is worth starting.
pub const POLICIES_TO_A_WORKER: usize = 8_192;
