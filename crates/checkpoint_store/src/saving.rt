// A snapshot is saved.
ghost use Rattle.std.specs.Prelude.{◌≡◌, ℕ, ◌+◌, ◌*◌, ◌≤◌, ◌++◌, false, List, length, IsTrue, OnOk};
ghost use Rattle.checkpoint_store.specs.Names.{flat_map, IsSafe, Leaves, most_commands, TellsFailure, TellsFaults};
ghost use Rattle.checkpoint_store.specs.Checkpoints.{CheckpointBytes, IsSoundSnapshot};
ghost use Rattle.checkpoint_store.specs.Spelling.{policy_bytes, snapshot_bytes, StandBehindGate};
ghost use Rattle.checkpoint_store.specs.Stores.{AreShut, IsKeptBy, IsKeptOrSavedBy, Knows, MightLeave, Saves, StoreLeaves, store_disk};
ghost use Rattle.checkpoint_store.specs.inside.Steps.{OpensGateOn, StaysShut};

use crate::front::{CLOSED, Front, OPEN, front_with};
use crate::gates::{put_gate, write_behind};
use crate::policies::{IN_PIECE, fill};
use crate::{Snapshot, Store};
use outside_io::{Disk, Failed};
use policy_types::Policy;
use posting_journal::DiskFault;

impl<E: Disk> Store<E> {
    /// Makes the snapshot the disk's checkpoint. At `Ok` each crash leaves it until the next call. A crash at any moment of the
    /// call, and after one that failed, leaves no checkpoint, or one that it might have left before, or this one.
    pub fn save(&mut self, snapshot: &Snapshot) -> Result<(), DiskFault>
        requires { IsSoundSnapshot snapshot.now }
        ensures disk { TellsFaults E.Disk (store_disk self.old) (store_disk self.new) result }
        ensures knows { E.honest (store_disk self.new) → Knows self.old → Knows self.new }
        ensures saved { E.honest (store_disk self.new) → Knows self.old → OnOk result ((image : List ℕ)
            → E.may_leave (store_disk self.new) image → CheckpointBytes image snapshot.now) }
        ensures moments { E.honest (store_disk self.new) → Knows self.old
            → Leaves E.Disk (store_disk self.old) (store_disk self.new) (IsKeptOrSavedBy self.old snapshot.now) }
        ensures kept { (image : List ℕ) → E.honest (store_disk self.new) → Knows self.old
            → MightLeave self.new image → IsKeptOrSavedBy self.old snapshot.now image }
    {
        match self.write(snapshot) {
            Ok(()) => Ok(()),
            Err(Failed) => Err(DiskFault {
                count: self.disk.faults(),
            }),
        }
    }

    fn write(&mut self, snapshot: &Snapshot) -> Result<(), Failed>
        requires { IsSoundSnapshot snapshot.now }
        ensures disk { TellsFailure E.Disk (store_disk self.old) (store_disk self.new) result }
        ensures saves { E.honest (store_disk self.new) → Knows self.old → Saves self.old self.new snapshot.now result }
    {
        if self.closed {
            return self.replace(snapshot);
        }
        self.close()?;
        self.replace(snapshot)
    }

    // Writes a snapshot behind a closed gate, and opens it.
    fn replace(&mut self, snapshot: &Snapshot) -> Result<(), Failed>
        requires sound { IsSoundSnapshot snapshot.now }
        requires closed { IsTrue self.old.closed }
        ensures disk { TellsFailure E.Disk (store_disk self.old) (store_disk self.new) result }
        ensures saves { E.honest (store_disk self.new) → Knows self.old → Saves self.old self.new snapshot.now result }
    {
        self.write_rest(snapshot)?;
        self.open(snapshot)
    }

    // Closes a gate that is open or isn't known.
    fn close(&mut self) -> Result<(), Failed>
        requires { self.old.closed ≡ false }
        ensures disk { TellsFailure E.Disk (store_disk self.old) (store_disk self.new) result }
        ensures closed { OnOk result (IsTrue self.new.closed) }
        ensures left { E.honest (store_disk self.new) → Knows self.old → StoreLeaves self.old self.new (IsKeptBy self.old) }
    {
        put_gate(&mut self.disk, CLOSED)?;
        self.closed = true;
        Ok(())
    }

    // Writes all but the gate, and makes it safe.
    fn write_rest(&mut self, snapshot: &Snapshot) -> Result<(), Failed>
        requires sound { IsSoundSnapshot snapshot.now }
        requires closed { IsTrue self.old.closed }
        ensures disk { TellsFailure E.Disk (store_disk self.old) (store_disk self.new) result }
        ensures closed { IsTrue self.new.closed }
        ensures written { E.honest (store_disk self.new) → Knows self.old
            → OnOk result (StandBehindGate (snapshot_bytes snapshot.now) (E.reads (store_disk self.new))
            × IsSafe E.Disk (store_disk self.new)) }
        ensures shut { E.honest (store_disk self.new) → Knows self.old
            → StaysShut E.Disk (store_disk self.old) (store_disk self.new) }
    {
        let front = Front {
            position: snapshot.position,
            upgrade: snapshot.upgrade,
            policies: snapshot.book.as_slice().len() as u32,
            ledger: snapshot.ledger,
        };
        write_behind(&mut self.disk, 1, &front_with(front)[1..])?;
        write_policies(&mut self.disk, snapshot.book.as_slice())?;
        self.disk.sync()
    }

    // Opens the gate before a snapshot that was written.
    fn open(&mut self, snapshot: &Snapshot) -> Result<(), Failed>
        requires sound { IsSoundSnapshot snapshot.now }
        ensures disk { TellsFailure E.Disk (store_disk self.old) (store_disk self.new) result }
        ensures opened { self.new.closed ≡ false }
        ensures gates { E.honest (store_disk self.new)
            → StandBehindGate (snapshot_bytes snapshot.now) (E.reads (store_disk self.old))
            → IsSafe E.Disk (store_disk self.old)
            → OpensGateOn E.Disk (store_disk self.old) (store_disk self.new) snapshot.now result }
    {
        self.closed = false;
        put_gate(&mut self.disk, OPEN)
    }
}

// Writes the policies from byte 64 on, piece by piece.
fn write_policies<E: Disk>(disk: &mut E, policies: &[Policy]) -> Result<(), Failed>
    requires few { length policies.now ≤ most_commands }
    requires begun { E.honest disk.old → 64 ≤ length (E.reads disk.old) }
    ensures disk { TellsFailure E.Disk disk.old disk.new result }
    ensures written { (front : List ℕ) → E.honest disk.new → length front ≡ 63
        → StandBehindGate front (E.reads disk.old)
        → OnOk result (StandBehindGate (front ++ flat_map policy_bytes policies.now) (E.reads disk.new)) }
    ensures longer { E.honest disk.new → length (E.reads disk.old) ≤ length (E.reads disk.new) }
    ensures shut { E.honest disk.new → AreShut E.Disk disk.old → StaysShut E.Disk disk.old disk.new }
{
    let mut piece = [0; 98_304];
    let mut done = 0;
    while done < policies.len() {
        let many = (policies.len() - done).min(IN_PIECE);
        fill(&mut piece, &policies[done..done + many]);
        write_behind(disk, 64 + 48 * done as u64, &piece[..48 * many])?;
        done += many;
    }
    Ok(())
}
