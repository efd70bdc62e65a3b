// A write that is made safe before anything else is done.
ghost use Rattle.std.specs.Prelude.{◌+◌, ◌≤◌, length, OnOk};
ghost use Rattle.posting_journal.specs.Faults.{TellsFailure};
ghost use Rattle.posting_journal.specs.inside.Steps.{PutsOn};

use outside_io::{Disk, Failed};

pub(crate) fn write_and_sync<D: Disk>(disk: &mut D, at: u64, bytes: &[u8]) -> Result<(), Failed>
    requires { D.honest disk.old → at ≤ length (D.reads disk.old) }
    ensures cause { TellsFailure D.Disk disk.old disk.new result }
    ensures longer { D.honest disk.new → length (D.reads disk.old) ≤ length (D.reads disk.new) }
    ensures filled { D.honest disk.new → OnOk result (at + length bytes.now ≤ length (D.reads disk.new)) }
    ensures facts { D.honest disk.new → PutsOn D.Disk disk.old disk.new at bytes.now result }
{
    disk.write_at(at, bytes)?;
    disk.sync()
}
