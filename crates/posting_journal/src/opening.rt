// The opening of a file.
ghost use Rattle.std.specs.Prelude.{◌≡◌, length, IfOk};
ghost use Rattle.posting_journal.specs.Creation.{IsUnfinished};
ghost use Rattle.posting_journal.specs.Faults.{TellsFailure};
ghost use Rattle.posting_journal.specs.inside.Kinds.{IsOfKind, IsLongIfMade};
ghost use Rattle.posting_journal.specs.Opening.{IsOpenedOn, OpensOn, HasSynced};
ghost use Rattle.posting_journal.specs.inside.Steps.{AnswersOpening};
ghost use Rattle.posting_journal.specs.Runs.{IsSafe, LooksOn, Passes};

use crate::creation::create;
use crate::faults::Unopened;
use crate::judging::{FileKind, judge};
use crate::scanning::count_records;
use outside_io::{Disk, Failed};

// Opens the journal and answers how many records it has. What a crash left is made safe first, so that it is all
// that a later crash leaves.
pub(crate) fn open<D: Disk>(disk: &mut D) -> Result<u32, Unopened>
    ensures answers { AnswersOpening D.Disk disk.old disk.new result }
    ensures opens { D.honest disk.new → OpensOn D.Disk disk.old disk.new }
    ensures synced { D.honest disk.new → IfOk result (λ n. HasSynced D.Disk disk.old disk.new) }
{
    disk.sync()?;
    open_safe(disk)
}

// Opens what is safe.
fn open_safe<D: Disk>(disk: &mut D) -> Result<u32, Unopened>
    requires safe { D.honest disk.old → IsSafe D.Disk disk.old }
    ensures answers { AnswersOpening D.Disk disk.old disk.new result }
    ensures moments { D.honest disk.new → Passes D.Disk disk.old disk.new (IsOpenedOn (D.reads disk.old)) }
    ensures unwritten { D.honest disk.new → ¬ IsUnfinished (D.reads disk.old) → LooksOn D.Disk disk.old disk.new }
{
    let size = disk.len()?;
    match kind_of(disk, size)? {
        FileKind::Unfinished { begun } => {
            create(disk, begun)?;
            Ok(0)
        }
        FileKind::Foreign => Err(Unopened::NotAJournal),
        FileKind::Made => count_records(disk, size),
    }
}

// Reads the first bytes.
fn kind_of<D: Disk>(disk: &mut D, size: u64) -> Result<FileKind, Failed>
    requires { D.honest disk.old → size ≡ length (D.reads disk.old) }
    ensures cause { TellsFailure D.Disk disk.old disk.new result }
    ensures long { IfOk result (λ kind. IsLongIfMade size kind) }
    ensures kind { D.honest disk.new → IfOk result (λ kind. IsOfKind (D.reads disk.old) kind) }
    ensures unwritten { D.honest disk.new → LooksOn D.Disk disk.old disk.new }
{
    let mut front = [0; 18];
    let many = size.min(18) as usize;
    disk.read(0, &mut front[..many])?;
    Ok(judge(&front[..many], size))
}
