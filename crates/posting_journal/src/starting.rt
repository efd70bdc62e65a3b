// A journal is started on a disk.
ghost use Rattle.std.specs.Prelude.{◌≡◌, ◌⊎◌, ℕ, List, IsTrue, IfOk, IfErr, IsErrAnd, MatchResult};
ghost use Rattle.posting_journal.specs.Creation.{IsUnfinished};
ghost use Rattle.posting_journal.specs.Layout.{empty_journal};
ghost use Rattle.posting_journal.specs.States.{disk_of, is_clean};
ghost use Rattle.posting_journal.specs.Opening.{OpensOn};
ghost use Rattle.posting_journal.specs.Starting.{TellsCause, ShowsCause, IsRefusedFor, IsFault, HasStarted, disk_back};
ghost use Rattle.posting_journal.specs.inside.Unopened.{ShowsWhy, TellsCount};
ghost use Rattle.posting_journal.specs.declared.faults.JournalCause.{JournalCause};

use crate::faults::Unopened;
use crate::opening::open;
use crate::{Journal, JournalCause, JournalFault};
use outside_io::Disk;

impl<D: Disk> Journal<D> {
    /// Opens the journal of the disk, or makes an empty one of an unfinished creation. Over any other file nothing is
    /// written. A disk that fails is given back with its count, which rose in this call.
    pub fn start(disk: D) -> Result<Journal<D>, JournalFault<D>>
        ensures told { IfErr result (λ fault. TellsCause (D.faults disk) (D.faults fault.disk) fault.cause) }
        ensures quiet { IfOk result (λ journal. D.faults (disk_of journal) ≡ D.faults disk) }
        ensures clean { IfOk result (λ journal. IsTrue (is_clean journal)) }
        ensures honesty { D.honest (disk_back result) → D.honest disk }
        ensures opened { D.honest (disk_back result) → IfOk result (λ journal. HasStarted disk journal) }
        ensures made { D.honest (disk_back result) → IsUnfinished (D.reads disk)
            → IfOk result (λ journal. D.reads (disk_of journal) ≡ empty_journal) }
        ensures refused { D.honest (disk_back result) → IfErr result (λ fault. ShowsCause (D.reads disk) fault.cause) }
        ensures due { (cause : JournalCause) → D.honest (disk_back result) → IsRefusedFor (D.reads disk) cause
            → IsErrAnd result (λ fault. (fault.cause ≡ cause) ⊎ IsFault fault.cause) }
        ensures opens { D.honest (disk_back result) → OpensOn D.Disk disk (disk_back result) }
    {
        let mut disk = disk;
        match open(&mut disk) {
            Ok(count) => Ok(Journal {
                disk,
                count,
                clean: true,
            }),
            Err(unopened) => {
                let cause = cause_of(unopened, disk.faults());
                Err(JournalFault { cause, disk })
            }
        }
    }
}

// The same cause, with the count of the disk's faults.
fn cause_of(unopened: Unopened, count: u64) -> JournalCause
    ensures told { (before : ℕ) → TellsCount before count unopened → TellsCause before count result }
    ensures shown { (bytes : List ℕ) → ShowsWhy bytes unopened → ShowsCause bytes result }
{
    match unopened {
        Unopened::Unread => JournalCause::DiskFault(count),
        Unopened::NotAJournal => JournalCause::NotAJournal,
        Unopened::BadRecord(n) => JournalCause::BadRecord(n),
    }
}
