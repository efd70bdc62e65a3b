//! Worked checkpoints, each a theorem over the definitions alone.

ghost use Rattle.checkpoint_store.specs.Worked.{BadByHand, FaultsOfTwo, OpenAndClosed, ReopenedByHand, SnapshotOfTwo, SpelledSnapshot, StartsByHand, TrueByHand, UnsoundSnapshots};

/// A snapshot of one policy, its file, and files that are none.
pub fn checkpoints_by_hand()
    ensures spelled { SpelledSnapshot }
    ensures gates { OpenAndClosed }
    ensures unsound { UnsoundSnapshots }
{}

/// What an issue and an upgrade leave.
pub fn snapshot_by_hand()
    ensures { SnapshotOfTwo }
{}

/// A journal of two commands is reopened with a checkpoint behind the first; where records are decided from.
pub fn reopening_by_hand()
    ensures starts { StartsByHand }
    ensures front { TrueByHand }
    ensures bad { BadByHand }
    ensures reopened { ReopenedByHand }
    ensures faults { FaultsOfTwo }
{}
