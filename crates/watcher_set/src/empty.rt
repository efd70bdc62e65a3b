ghost use Rattle.std.specs.Prelude.{[]};

use crate::evidence::Lack;
use crate::reports::Reports;
use crate::watching::Watching;
use policy_types::Command;

/// The set without watchers.
#[derive(Drop)]
pub struct NoWatchers;

impl Watching for NoWatchers {
    ghost handed = { λ _. [] };

    ghost told = { λ _ _ _. Unit {0} };

    ghost has_room = { λ _. Unit {0} };

    ghost is_full = { λ _. ⊥ };

    fn ready(&mut self) -> Result<(), Lack> {
        Ok(())
    }

    fn note(&mut self, _position: u32, _command: &Command) {}

    fn finish(self) -> Reports {
        Reports::none()
    }
}
