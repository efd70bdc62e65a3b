// The creation of an empty journal, in three steps. At each moment the file is an unfinished creation, or the journal.
ghost use Rattle.std.specs.Prelude.{◌≡◌, false, IsTrue};
ghost use Rattle.posting_journal.specs.Creation.{IsBegun, IsEmptyJournal, IsReadyAndBegun, IsToBegin};
ghost use Rattle.posting_journal.specs.Runs.{IsSafe, IsSafeWith};
ghost use Rattle.posting_journal.specs.inside.Steps.{CreatesOn};

use crate::layout::{CLOSED, HEADER_AND_GATE, OPEN};
use crate::writing::write_and_sync;
use outside_io::{Disk, Failed};

// Makes an empty journal of an unfinished creation. `begun` tells whether byte 0 already says that the creation goes
// on.
pub(crate) fn create<D: Disk>(disk: &mut D, begun: bool) -> Result<(), Failed>
    requires begun { D.honest disk.old → IsTrue begun → IsBegun (D.reads disk.old) }
    requires other { D.honest disk.old → begun ≡ false → IsToBegin (D.reads disk.old) }
    requires safe { D.honest disk.old → IsSafe D.Disk disk.old }
    ensures { CreatesOn D.Disk disk.old disk.new IsEmptyJournal result }
{
    if !begun {
        begin(disk)?;
    }
    write_header(disk)?;
    finish(disk)
}

// Byte 0 says that the creation goes on, before anything else is written.
fn begin<D: Disk>(disk: &mut D) -> Result<(), Failed>
    requires { D.honest disk.old → IsSafeWith D.Disk IsToBegin disk.old }
    ensures { CreatesOn D.Disk disk.old disk.new IsBegun result }
{
    write_and_sync(disk, 0, &[CLOSED])
}

// The header and the closed gate of record 0 are safe before byte 0 says that they are.
fn write_header<D: Disk>(disk: &mut D) -> Result<(), Failed>
    requires { D.honest disk.old → IsSafeWith D.Disk IsBegun disk.old }
    ensures { CreatesOn D.Disk disk.old disk.new IsReadyAndBegun result }
{
    write_and_sync(disk, 1, &HEADER_AND_GATE)
}

// Byte 0 says that the creation has ended.
fn finish<D: Disk>(disk: &mut D) -> Result<(), Failed>
    requires { D.honest disk.old → IsSafeWith D.Disk IsReadyAndBegun disk.old }
    ensures { CreatesOn D.Disk disk.old disk.new IsEmptyJournal result }
{
    write_and_sync(disk, 0, &[OPEN])
}
