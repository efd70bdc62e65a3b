// A record is made, on a journal that is repaired first where a fault left it unclean.
ghost use Rattle.std.specs.Prelude.{◌≡◌, ◌<◌, ◌+◌, List, ℕ, is_ok, if◌then◌else◌};
ghost use Rattle.posting_journal.specs.Faults.{TellsFaults};
ghost use Rattle.policy_types.specs.Limits.{most_commands};
ghost use Rattle.posting_journal.specs.States.{StandsFor, count_of, disk_of};
ghost use Rattle.office_state.specs.inside.Records.{Records};

use outside_io::Disk;
use posting_journal::{DiskFault, Journal};

/// Adds a record of this body. At `Ok` each crash leaves it from then on; at a fault it isn't counted, and a crash may
/// leave it or not until the journal is repaired.
pub fn record<D: Disk>(journal: &mut Journal<D>, body: &[u8; 64]) -> Result<(), DiskFault>
    requires few { count_of journal.old < most_commands }
    ensures count { count_of journal.new
        ≡ (if is_ok result then (count_of journal.old) + 1 else (count_of journal.old)) }
    ensures disk { TellsFaults D.Disk (disk_of journal.old) (disk_of journal.new) result }
    ensures records { (bodies : List (List ℕ)) (last : List ℕ) → D.honest (disk_of journal.new)
        → StandsFor journal.old bodies last
        → Records journal.old journal.new bodies last body.now result }
{
    if !journal.is_clean() {
        journal.repair()?;
    }
    journal.append(body)
}
