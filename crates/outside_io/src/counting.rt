// A call of the standard library, whose failure is a fault.
ghost use Rattle.std.specs.Prelude.{◌≡◌, OnErr};
ghost use Rattle.std.specs.Result.{result_ok};
ghost use Rattle.outside_io.specs.Disks.{HasDiskCause};
ghost use Rattle.outside_io.specs.Plans.{number_after};

use crate::Failed;
use std::io;

// The same result; if it is a failure, one more fault is counted. The count stands still at its type's end.
pub(crate) fn counted<T>(done: io::Result<T>, faults: &mut u64) -> Result<T, Failed>
    ensures value { result_ok result ≡ result_ok done }
    ensures one { OnErr result (faults.new ≡ number_after faults.old) }
    ensures cause { HasDiskCause faults.old faults.new result }
{
    match done {
        Ok(value) => Ok(value),
        Err(_) => {
            *faults = faults.saturating_add(1);
            Err(Failed)
        }
    }
}
