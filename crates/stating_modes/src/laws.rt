// A law that the definitions satisfy, as a function that does nothing.
ghost use Rattle.std.specs.Prelude.{length};
ghost use Rattle.stating_modes.specs.Names.{Rose, Stream, Ending, book, ledger_of};
ghost use Rattle.stating_modes.specs.Books.{books_text};
ghost use Rattle.stating_modes.specs.Stating.{EndsState};
ghost use Rattle.stating_modes.specs.Stated.{EndsStateKept};
ghost use Rattle.stating_modes.specs.TwoDisks.{AreTrue, TwoDisks};

use outside_io::Disk;

/// If the two disks are true and the second doesn't fail, `state` ends as it does with the journal alone, and writes
/// the same: with a checkpoint, without one, and with one that is out of date.
pub fn states_the_same<D: Disk, E: Disk>()
    ensures { (disks : TwoDisks D E) (output : Stream) (ending : Ending) → AreTrue D.Disk E.Disk disks
        → ¬ Rose (E.faults disks.second) (E.faults disks.kept) → EndsStateKept D.Disk E.Disk disks output ending
        → EndsState D.Disk disks.old disks.new
        (λ commands. books_text (book commands) (ledger_of commands) (length commands)) output ending }
{}
