use policy_types::NoMemory;

/// Why a basis file isn't read. Rows are counted from 1.
#[derive(Clone, Copy, PartialEq, Eq, Debug)]
pub enum BasisFault {
    /// There are more than 1,000 rows.
    TooManyRows,
    /// This row is the first that isn't a basis row.
    BadBasisRow(u32),
    /// This row is the first that doesn't fit, since its day isn't after that of the row before it.
    NotRising(u32),
    /// Memory was refused.
    NoMemory(NoMemory),
}

/// The first row, counted from 1, whose table isn't among the tables.
#[derive(Clone, Copy, PartialEq, Eq, Debug)]
pub struct NoSuchTable(pub u32);
