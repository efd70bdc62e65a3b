// One worker of a projection.
ghost use Rattle.std.specs.Prelude.{◌≡◌, ◌≤◌};
ghost use Rattle.cash_projection.specs.inside.Portions.{TakesPortion, GivesTally};

use crate::paths::Paths;
use crate::portions::Portion;
use crate::projecting::tally_policies;
use crate::tally::Tally;
use basis_book::Basis;
use parallel_value::Piece;

/// It tallies one portion of policies after another by a basis on a day, and keeps paths for later portions.
#[derive(Drop)]
pub struct Projector<'a> {
    pub basis: &'a Basis,
    pub on: i32,
    pub years: u8,
    pub paths: Paths,
}

impl<'a> Piece<Portion<'a>, Tally> for Projector<'_> {
    ghost takes = { λ projector portion. TakesPortion projector portion };

    ghost gives = { λ projector portion tally. GivesTally projector portion tally };

    fn one(&mut self, portion: &Portion<'a>) -> Tally {
        tally_policies(
            portion.policies,
            self.basis,
            self.on,
            self.years,
            &mut self.paths,
        )
    }
}
