// The office's state as a value that turns change.
use office_state::OfficeState;
use outside_io::Disk;
use std::marker::Model;
use std::snapshot::Snapshot;
use turn_lock::Stands;
use watcher_set::Watching;

/// An office's state under the lock.
#[derive(Drop)]
pub struct SharedState<D: Disk, W: Watching> {
    pub(crate) state: OfficeState<D, W>,
    // The watchers as they were handed in, for contracts alone.
    pub(crate) handed: Snapshot<W>,
    // The office as it was opened, for contracts alone.
    pub(crate) opened: Snapshot<OfficeState<D, W>>,
}

impl<D: Disk, W: Watching> SharedState<D, W> {
    ghost use Rattle.std.specs.Prelude.{◌≡◌};

    pub(crate) fn into_state(self) -> OfficeState<D, W>
        ensures { result ≡ self.state }
    {
        let SharedState {
            state,
            handed: _,
            opened: _,
        } = self;
        state
    }
}

/// What an office was opened on. No value of it is made.
pub struct OpenedOn<D: Disk, W: Watching> {
    state: Snapshot<SharedState<D, W>>,
}

impl<D: Disk, W: Watching> Model for OpenedOn<D, W> {
    ghost use Rattle.shared_office.specs.Offices.{OfficeOpening};
    ghost use Rattle.shared_office.specs.inside.Standing.{opening_on};

    ghost Value = { OfficeOpening D W };

    ghost view = { λ o. opening_on o.state.value };
}

impl<D: Disk, W: Watching> Stands for SharedState<D, W> {
    ghost use Rattle.shared_office.specs.Offices.{IsOfficeHistory};
    ghost use Rattle.shared_office.specs.inside.Standing.{SharedStandsFor, is_history, opening_on};

    type Opening = OpenedOn<D, W>;

    ghost opening = { λ shared. opening_on shared };

    ghost legal = { λ opening turns. IsOfficeHistory opening turns };

    ghost stands = { λ shared turns. SharedStandsFor shared turns };

    ghost is_legal = { λ shared turns stood. is_history shared turns stood };
}
