// An office is opened on a disk: its journal is opened, and each record is decided anew, in order.
ghost use Rattle.std.specs.Prelude.{◌≡◌, ℕ, [], IfOk, IfErr};
ghost use Rattle.moment_ring.specs.Ends.{HasRoomFor, told};
ghost use Rattle.policy_types.specs.Limits.{most_commands};
ghost use Rattle.office_state.specs.Opening.{HasOpened, HasNotOpened};
ghost use Rattle.office_state.specs.States.{auditors_of, outlet_of};
ghost use Rattle.office_state.specs.inside.Replays.{IsOfficeOf, HasNoOffice};

use crate::books::Books;
use crate::faults::{StartFault, cause_of, cause_of_replay};
use crate::state::OfficeState;
use arrayvec::ArrayVec;
use journal_replay::replay_all;
use moment_ring::MomentOutlet;
use outside_io::Disk;
use posting_journal::Journal;
use std::alloc::Global;
use std::snapshot::Snapshot;
use watcher_set::Watching;

impl<D: Disk, W: Watching> OfficeState<D, W> {
    /// The office of the disk's journal, with watchers who were told of nothing, and an outlet in which no moment was told
    /// and which has room for one of each command that may be accepted. Over any file but an unfinished creation nothing is written.
    pub fn open(
        alloc: Global,
        disk: D,
        watchers: W,
        outlet: MomentOutlet<D>,
    ) -> Result<OfficeState<D, W>, StartFault<D>>
        requires fresh { (before : ℕ) → W.told watchers before [] }
        requires untold { told outlet.ring ≡ [] }
        requires room { HasRoomFor most_commands outlet.ring }
        ensures opened { IfOk result (λ state. HasOpened disk state) }
        ensures auditors { IfOk result (λ state. auditors_of state ≡ W.handed watchers) }
        ensures outlet { IfOk result (λ state. outlet_of state ≡ outlet.ring) }
        ensures refused { IfErr result (λ fault. HasNotOpened D.Disk disk fault.disk fault.cause) }
    {
        let begun = Snapshot::of(&disk);
        match Journal::start(disk) {
            Ok(journal) => office_of(alloc, journal, begun, watchers, outlet),
            Err(fault) => Err(StartFault {
                cause: cause_of(fault.cause),
                disk: fault.disk,
            }),
        }
    }
}

// The office of a journal that was opened.
fn office_of<D: Disk, W: Watching>(
    alloc: Global,
    journal: Journal<D>,
    begun: Snapshot<D>,
    watchers: W,
    outlet: MomentOutlet<D>,
) -> Result<OfficeState<D, W>, StartFault<D>>
    ensures opened { IfOk result (λ state. IsOfficeOf journal begun.value watchers outlet.ring state) }
    ensures none { IfErr result (λ fault. HasNoOffice journal fault.disk fault.cause) }
{
    let mut journal = journal;
    let mut books = Books::new(alloc);
    books.expect(journal.count());
    match replay_all(&mut journal, &mut books) {
        Ok(()) => {
            let recovered = Snapshot::of(&books);
            Ok(OfficeState {
                journal,
                books,
                watchers,
                turns: 0,
                pins: ArrayVec::new(),
                outlet,
                begun,
                recovered,
            })
        }
        Err(fault) => Err(StartFault {
            cause: cause_of_replay(fault),
            disk: journal.release(),
        }),
    }
}
