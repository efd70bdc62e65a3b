// A store is started on a disk, and gives it back.
ghost use Rattle.std.specs.Prelude.{◌≡◌, IfOk, IfErr};
ghost use Rattle.checkpoint_store.specs.Names.{Rose, LooksOn};
ghost use Rattle.checkpoint_store.specs.Starts.{HasLookedAt, second_disk_back};
ghost use Rattle.checkpoint_store.specs.Stores.{store_disk};

use crate::gates::look;
use crate::{Store, StoreFault};
use outside_io::{Disk, Failed};

impl<E: Disk> Store<E> {
    /// Makes the disk safe and looks at its gate. A disk that fails is given back with its count, which rose in this call.
    /// Nothing is written.
    pub fn start(disk: E) -> Result<Store<E>, StoreFault<E>>
        ensures told { IfErr result (λ fault. fault.count ≡ E.faults fault.disk) }
        ensures rose { IfErr result (λ fault. Rose (E.faults disk) (E.faults fault.disk)) }
        ensures quiet { IfOk result (λ store. E.faults (store_disk store) ≡ E.faults disk) }
        ensures honesty { E.honest (second_disk_back result) → E.honest disk }
        ensures unwritten { E.honest (second_disk_back result) → LooksOn E.Disk disk (second_disk_back result) }
        ensures opened { E.honest (second_disk_back result) → IfOk result (λ store. HasLookedAt disk store) }
    {
        let mut disk = disk;
        match look(&mut disk) {
            Ok(closed) => Ok(Store { disk, closed }),
            Err(Failed) => {
                let count = disk.faults();
                Err(StoreFault { count, disk })
            }
        }
    }

    /// Gives the disk back.
    pub fn release(self) -> E
        ensures { result ≡ store_disk self }
    {
        let Store { disk, closed: _ } = self;
        disk
    }
}
