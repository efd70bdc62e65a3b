ghost use Rattle.std.specs.Prelude.{◌≡◌, ℕ, ◌+◌, ◌≤◌, ◌<◌, List, [], ◌∷◌, ◌++◌, length, OnOk, OnErr};
ghost use Rattle.watcher_set.specs.Names.{ACommand, most_commands, IsValid};
ghost use Rattle.watcher_set.specs.Limits.{most_watchers};
ghost use Rattle.watcher_set.specs.Noted.{Auditor, reports_of};
ghost use Rattle.watcher_set.specs.Told.{AreTold, HasFull, HaveRoom};

use crate::evidence::Lack;
use crate::place::{Place, note_place, ready_place, report_of};
use crate::reports::Reports;
use policy_types::{Command, Watcher};

/// Readies each watcher that goes on. This fails only if one of them has no capacity for one more command.
pub(crate) fn ready_all<B: Watcher>(places: &mut [Place<B>]) -> Result<(), Lack>
    ensures told { (before : ℕ) (commands : List ACommand) (auditors : List Auditor)
        → AreTold B.Watcher before commands auditors places.old → AreTold B.Watcher before commands auditors places.new }
    ensures ok { OnOk result (HaveRoom B.Watcher places.new) }
    ensures full { OnErr result (HasFull B.Watcher places.old) }
{
    for place in places.iter_mut() {
        ready_place(place)?;
    }
    Ok(())
}

/// Notifies each watcher that goes on of the command at this position.
pub(crate) fn note_all<B: Watcher>(places: &mut [Place<B>], position: u32, command: &Command)
    requires room { HaveRoom B.Watcher places.old }
    requires valid { IsValid command.now }
    requires next { (before : ℕ) × (commands : List ACommand) × (auditors : List Auditor)
        × AreTold B.Watcher before commands auditors places.old × (length commands < most_commands)
        × (position ≡ before + length commands + 1) }
    ensures { (before : ℕ) (commands : List ACommand) (auditors : List Auditor)
        → AreTold B.Watcher before commands auditors places.old → position ≡ before + length commands + 1
        → AreTold B.Watcher before (commands ++ command.now ∷ []) auditors places.new }
{
    for place in places.iter_mut() {
        note_place(place, position, command);
    }
}

/// The reports of all places, in order.
pub(crate) fn reports_of_all<B: Watcher>(places: &[Place<B>]) -> Reports
    requires { length places.now ≤ most_watchers }
    ensures { (before : ℕ) (commands : List ACommand) (auditors : List Auditor)
        → AreTold B.Watcher before commands auditors places.now → result ≡ reports_of auditors commands }
{
    let mut reports = Reports::none();
    for place in places {
        reports.push(report_of(place));
    }
    reports
}
