ghost use Rattle.std.specs.Prelude.{◌≤◌};

use crate::fault::BasisFault;
use crate::row::BasisRow;

/// What was read of the rows of a basis file so far: the basis rows, or the first fault.
#[derive(Drop)]
pub struct Reading {
    pub found: Vec<BasisRow>,
    /// How many rows were read. The count stands still at 1,001.
    pub count: u32,
    pub fault: Option<BasisFault>,
    ghost small: { count ≤ 1001 },
}
