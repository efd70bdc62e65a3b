ghost use Rattle.std.specs.Prelude.{◌≡◌, ℕ, ◌≤◌, List, [], ◌∷◌, ◌++◌, length, map};
ghost use Rattle.std.specs.List.{AllByRecursion};
ghost use Rattle.watcher_set.specs.Limits.{most_watchers};
ghost use Rattle.watcher_set.specs.Told.{auditor_of, AreTold, HasFull, HaveRoom};

use crate::evidence::Lack;
use crate::place::Place;
use crate::reports::{MOST_WATCHERS, Reports};
use crate::rounds::{note_all, ready_all, reports_of_all};
use crate::watching::Watching;
use arrayvec::ArrayVec;
use policy_types::{Command, Watcher};
use std::snapshot::Snapshot;

/// Watchers of one type that were handed in: at most 16. A box of a watcher is a watcher, so they can be of many
/// types.
#[derive(Drop)]
pub struct Watchers<B> {
    handed: Snapshot<Vec<B>>,
    places: ArrayVec<Place<B>, MOST_WATCHERS>,
}

impl<B: Watcher> Watchers<B> {
    /// Watchers that have noted nothing.
    pub fn new(auditors: Vec<B>) -> Watchers<B>
        requires few { length auditors.items ≤ most_watchers }
        requires fresh { AllByRecursion (λ b. B.noted b ≡ []) auditors.items }
        ensures handed { ⟦<Watchers<B> as Watching>⟧.handed result ≡ map (auditor_of B.Watcher) auditors.items }
        ensures told { (before : ℕ) → ⟦<Watchers<B> as Watching>⟧.told result before [] }
    {
        let handed = Snapshot::of(&auditors);
        let mut places: ArrayVec<Place<B>, MOST_WATCHERS> = ArrayVec::new();
        for auditor in auditors {
            places.push(Place::Listening(auditor));
        }
        Watchers { handed, places }
    }
}

impl<B: Watcher> Watching for Watchers<B> {
    ghost handed = { λ it. map (auditor_of B.Watcher) it.handed.value.items };

    ghost told = { λ it before commands. AreTold B.Watcher before commands
        (map (auditor_of B.Watcher) it.handed.value.items) it.places.items };

    ghost has_room = { λ it. HaveRoom B.Watcher it.places.items };

    ghost is_full = { λ it. HasFull B.Watcher it.places.items };

    fn ready(&mut self) -> Result<(), Lack> {
        ready_all(self.places.as_mut_slice())
    }

    fn note(&mut self, position: u32, command: &Command) {
        note_all(self.places.as_mut_slice(), position, command);
    }

    fn finish(self) -> Reports {
        reports_of_all(self.places.as_slice())
    }
}
