// One worker of a valuation.
ghost use Rattle.std.specs.Prelude.{◌≡◌, IfOk};
ghost use Rattle.snapshot_value.specs.inside.Workers.{TakesPolicy, GivesRow};

use basis_book::Basis;
use parallel_value::Piece;
use policy_types::Policy;
use policy_value::{ColumnCache, Measure, Row, row};

/// Values one policy after another by a basis on a day and a measure, and keeps present values for later policies.
#[derive(Drop)]
pub struct Worker<'a> {
    pub basis: &'a Basis,
    pub on: i32,
    pub measure: Measure,
    pub cache: ColumnCache,
}

impl Piece<Policy, Row> for Worker<'_> {
    ghost takes = { λ worker policy. TakesPolicy worker policy };

    ghost gives = { λ worker policy row. GivesRow worker policy row };

    fn one(&mut self, policy: &Policy) -> Row {
        row(policy, self.basis, self.on, self.measure, &mut self.cache)
    }
}
