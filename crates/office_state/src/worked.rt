//! Worked files of an office, each a theorem over the definitions alone.

ghost use Rattle.office_state.specs.Worked.{CrashesOfAPosting, EmptyAlike, FaultedThen, FaultsCounted, HeldNow, HeldOnce, JournalOfTwo, ShownCauses};

/// The journal of two commands, and what a crash leaves of the second posting.
pub fn offices_by_hand()
    ensures two { JournalOfTwo }
    ensures crashes { CrashesOfAPosting }
    ensures now { HeldNow }
    ensures once { HeldOnce }
{}

/// What the turns of a history say of its faults.
pub fn faults_by_hand()
    ensures then { FaultedThen }
    ensures counted { FaultsCounted }
{}

/// Files that open alike, and files that don't open.
pub fn shown_by_hand()
    ensures alike { EmptyAlike }
    ensures causes { ShownCauses }
{}
