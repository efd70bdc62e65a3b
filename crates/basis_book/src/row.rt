use crate::name::Name;
use policy_types::Listed;

/// What holds from a day on: a table, by its file name, and a rate of interest in basis points.
#[derive(Drop)]
pub struct BasisRow {
    /// Days since 1970-01-01.
    pub from_day: i32,
    pub table: Name,
    /// Basis points.
    pub bp: u16,
}

/// The most rows of a basis file.
pub const MOST_ROWS: usize = 1_000;

/// The rows of a basis file, in order.
pub type BasisRows = Listed<BasisRow>;
