ghost use Rattle.std.specs.Prelude.{◌≡◌, ◌<◌, ◌≤◌, List, [], ◌∷◌, ◌++◌, length, OnOk, OnErr};
ghost use Rattle.watcher_set.specs.Names.{ACommand, IsValid};
ghost use Rattle.watcher_set.specs.Told.{HasSpareRoom, IsFull};
ghost use Rattle.watcher_set.specs.inside.Calls.{MayBeTold, Stays, Hears, report_at};

use crate::evidence::Lack;
use policy_types::{Attention, Command, NotReady, Report, Watcher};

/// The place of a watcher: the watcher while it goes on, and afterwards its report.
#[derive(Drop)]
pub enum Place<B> {
    Listening(B),
    Reported(Report),
}

impl<B> Default for Place<B> {
    fn default() -> Place<B> {
        Place::Reported(Report { seen: 0, tally: 0 })
    }
}

/// Readies the watcher, if it goes on. This fails only if the watcher has no capacity for one more command.
pub(crate) fn ready_place<B: Watcher>(place: &mut Place<B>) -> Result<(), Lack>
    ensures stays { Stays B.Watcher place.old place.new }
    ensures ok { OnOk result (HasSpareRoom B.Watcher place.new) }
    ensures full { OnErr result (IsFull B.Watcher place.old) }
{
    match place {
        Place::Listening(watcher) => match watcher.ready() {
            Ok(()) => Ok(()),
            Err(NotReady) => Err(Lack::of_auditor()),
        },
        Place::Reported(_) => Ok(()),
    }
}

/// Notifies the watcher, if it goes on, of the command at this position. A watcher that is then done gives its report
/// and is dropped.
pub(crate) fn note_place<B: Watcher>(place: &mut Place<B>, position: u32, command: &Command)
    requires room { HasSpareRoom B.Watcher place.old }
    requires next { MayBeTold B.Watcher position place.old }
    requires valid { IsValid command.now }
    ensures { Hears B.Watcher position command.now place.old place.new }
{
    let Place::Listening(watcher) = place else {
        return;
    };
    match watcher.note(position, command) {
        Attention::More => {}
        Attention::Done => {
            *place = Place::Reported(watcher.report());
        }
    }
}

/// The report: the one that was kept, or else the one that the watcher gives now.
pub(crate) fn report_of<B: Watcher>(place: &Place<B>) -> Report
    ensures { result ≡ report_at B.Watcher place.now }
{
    match place {
        Place::Listening(watcher) => watcher.report(),
        Place::Reported(report) => *report,
    }
}
