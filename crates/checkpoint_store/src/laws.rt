//! Laws of checkpoints and of reopening, for callers.

ghost use Rattle.std.specs.Prelude.{◌≡◌, ℕ, ◌++◌, List, Ok, Err};
ghost use Rattle.checkpoint_store.specs.declared.faults.ReopenFault.TheVariants.{BadRecord};
ghost use Rattle.checkpoint_store.specs.declared.snapshot.Snapshot.{Snapshot};
ghost use Rattle.checkpoint_store.specs.Checkpoints.{CheckpointBytes, IsNoCheckpoint};
ghost use Rattle.checkpoint_store.specs.Reopening.{IsReopened, IsSnapshotOfAll, IsSnapshotOfFront, IsTrueCheckpoint, IsTrueWhereUsed};

/// No file is the checkpoint of two snapshots.
pub fn one_snapshot_a_file()
    ensures { (file : List ℕ) (s t : Snapshot) → CheckpointBytes file s → CheckpointBytes file t → s ≡ t }
{}

/// A checkpoint of a journal's front is true of the journal, and so is a file without one. What is true of a journal stays
/// true of a longer one.
pub fn checkpoints_stay_true()
    ensures saved { (file : List ℕ) (bodies : List (List ℕ)) (s : Snapshot) → CheckpointBytes file s → IsSnapshotOfFront bodies s → IsTrueCheckpoint file bodies }
    ensures none { (file : List ℕ) (bodies : List (List ℕ)) → IsNoCheckpoint file → IsTrueCheckpoint file bodies }
    ensures longer { (file : List ℕ) (bodies more : List (List ℕ)) → IsTrueCheckpoint file bodies → IsTrueCheckpoint file (bodies ++ more) }
    ensures used { (file : List ℕ) (bodies : List (List ℕ)) → IsTrueCheckpoint file bodies → IsTrueWhereUsed file bodies }
    ensures front { (bodies : List (List ℕ)) (s : Snapshot) → IsSnapshotOfAll bodies s → IsSnapshotOfFront bodies s }
{}

/// A journal is reopened to the same snapshot from whatever file, or for the same record to none.
pub fn starts_make_no_difference()
    ensures same { (file other : List ℕ) (bodies : List (List ℕ)) (s t : Snapshot)
        → IsReopened file bodies (Ok s) → IsReopened other bodies (Ok t) → s ≡ t }
    ensures record { (file other : List ℕ) (bodies : List (List ℕ)) (n m : ℕ)
        → IsReopened file bodies (Err (BadRecord n)) → IsReopened other bodies (Err (BadRecord m)) → n ≡ m }
    ensures exact { (file other : List ℕ) (bodies : List (List ℕ)) (s : Snapshot) (n : ℕ)
        → IsReopened file bodies (Ok s) → IsReopened other bodies (Err (BadRecord n)) → ⊥ }
{}
