// Laws that the definitions satisfy, as functions that do nothing.
ghost use Rattle.std.specs.Prelude.{◌≡◌, ◌⊎◌, ℕ, List, Option, Some, []};
ghost use Rattle.life_app.specs.Names.{Command, Entry, Opening, IsSafe, IsFirstScriptFault, TellsTruth, TwoDisks, between, input_between, shelf_between, Auditor, IsFrontThere, IsLeftAlone, Opens, IsReadable, IsUnreadable};
ghost use Rattle.life_app.specs.Crashes.{AreAllHeld, AreHeld, HasRun};
ghost use Rattle.life_app.specs.KeptRuns.{AreRunsOfTwo, IsLeftByCall, OneRunOfTwo, SavedOfFirst};
ghost use Rattle.life_app.specs.Runs.{AreLeft, AreRuns, IsLeftSo, OneRun};
ghost use Rattle.life_app.specs.Obeys.{Obeys};

use outside_io::{Disk, Shelf, Sink, Source};

/// Every script is read or refused, and none is both; no script has two first faults.
pub fn scripts_are_read_or_refused()
    ensures either { (bytes : List ℕ) → IsReadable bytes ⊎ IsUnreadable bytes }
    ensures not_both { (bytes : List ℕ) → IsReadable bytes → IsUnreadable bytes → ⊥ }
    ensures one { (bytes : List ℕ) (row other field place : ℕ) → IsFirstScriptFault bytes row field
        → IsFirstScriptFault bytes other place → (row ≡ other) × (field ≡ place) }
{}

/// A crash at any moment of a run leaves the commands from before it, a prefix of what it accepted, and at most one
/// command more. A crash after it leaves all that it accepted, and at most one more command.
pub fn crashes_of_a_run<D: Disk>()
    ensures during { (old new : D) (opening : Opening) (history : List Entry) (image : List ℕ)
        → HasRun D.Disk old new opening history → D.left_since new (D.clock old) image
        → IsFrontThere Opens opening.commands history image }
    ensures afterwards { (old new : D) (opening : Opening) (history : List Entry) (image : List ℕ)
        (commands : List Command) → HasRun D.Disk old new opening history → D.may_leave new image
        → Opens image commands → AreAllHeld opening history commands }
{}

/// The run that opens what a crash left goes on from these commands.
pub fn runs_after_a_crash<D: Disk>()
    ensures { (next last : D) (opening second : Opening) (history turns : List Entry)
        → IsFrontThere Opens opening.commands history (D.reads next) → HasRun D.Disk next last second turns
        → AreHeld opening history second.commands }
{}

/// If that opening is cut short, before its first turn or without opening an office, a crash leaves the same commands
/// again.
pub fn crashes_of_an_opening<D: Disk>()
    ensures opened { (next last : D) (opening second : Opening) (history : List Entry) (image : List ℕ)
        → IsFrontThere Opens opening.commands history (D.reads next) → HasRun D.Disk next last second []
        → D.left_since last (D.clock next) image → IsFrontThere Opens opening.commands history image }
    ensures unopened { (next last : D) (opening : Opening) (history : List Entry) (image : List ℕ)
        → IsFrontThere Opens opening.commands history (D.reads next) → D.honest last → IsSafe D.Disk next → IsLeftAlone D.Disk next last
        → D.left_since last (D.clock next) image → IsFrontThere Opens opening.commands history image }
{}

/// The runs of a list, each ended by its return or by a crash at any moment, leave, in their order: for each, what it
/// had reported as accepted, perhaps more of what it accepted, and at most one more command, which was answered
/// `fault`. The first run begins on a disk of which a crash leaves exactly what is read. Each call of the program,
/// over a second disk or none, leaves the disk as such a run does.
pub fn runs_in_a_row<S: Source, K: Sink, H: Shelf, D: Disk, E: Disk>()
    ensures left { (first last : D) (commands : List Command) (runs : List (OneRun D)) (image : List ℕ) → IsSafe D.Disk first
        → Opens (D.reads first) commands → AreRuns D.Disk first runs last → D.may_leave last image
        → (held : List Command) × Opens image held × AreLeft commands runs held }
    ensures so { (old new : D) (second kept : Option E) (input read : S) (output written : K) (shelf asked : H)
        (words : List (List ℕ)) (auditors : List Auditor) (status : ℕ)
        → Obeys D.Disk E.Disk old new second kept words auditors (input_between S.faults S.left S.given S.ended input read)
        (between K.faults K.written K.pieces output written) (shelf_between H.faults H.agrees shelf asked)
        (read ≡ input) (asked ≡ shelf) status
        → (opening : Opening) × ((history : List Entry) × IsLeftSo D.Disk old new opening history) }
{}

/// The runs of a list over both disks, each ended by its return or by a crash, leave a second disk that is true of
/// the journal: each checkpoint that it may leave is the snapshot of the first of the commands to which the journal's
/// file opens, whatever the two disks leave. The first run begins with disks of which a crash leaves exactly what is
/// read; a checkpoint on the second, if there is one, is true of the journal. A premise is that a crash which finds
/// the second disk changed came after the journal's disk was made safe. Each call of the program over both disks, if
/// they come back honest, leaves them so.
pub fn runs_over_both<S: Source, K: Sink, H: Shelf, D: Disk, E: Disk>()
    ensures left { (first last : D) (second last_second : E) (commands : List Command) (runs : List (OneRunOfTwo D E)) (image file : List ℕ)
        → IsSafe D.Disk first → IsSafe E.Disk second → Opens (D.reads first) commands → SavedOfFirst (E.reads second) commands
        → AreRunsOfTwo D.Disk E.Disk first second runs last last_second → D.may_leave last image → E.may_leave last_second file
        → (held : List Command) × Opens image held × SavedOfFirst file held × TellsTruth file image }
    ensures so { (disks : TwoDisks D E) (input read : S) (output written : K) (shelf asked : H) (words : List (List ℕ))
        (auditors : List Auditor) (status : ℕ) → D.honest disks.new → E.honest disks.kept
        → Obeys D.Disk E.Disk disks.old disks.new (Some disks.second) (Some disks.kept) words auditors (input_between S.faults S.left S.given S.ended input read)
        (between K.faults K.written K.pieces output written) (shelf_between H.faults H.agrees shelf asked)
        (read ≡ input) (asked ≡ shelf) status
        → IsLeftByCall D.Disk E.Disk disks }
{}
