// What is done with an open journal.
ghost use Rattle.std.specs.Prelude.{◌≡◌, ℕ, ◌+◌, ◌<◌, ◌++◌, [], ◌∷◌, List, false, if◌then◌else◌, is_ok, IsTrue, OnOk, MatchResult, Ok, Err};
ghost use Rattle.policy_types.specs.Limits.{most_commands};
ghost use Rattle.posting_journal.specs.Faults.{TellsFaults};
ghost use Rattle.posting_journal.specs.States.{AppendsOn, RepairsOn, StandsFor, count_of, disk_of, is_clean};

use crate::layout::{CLOSED, OPEN, body_place, gate_place};
use crate::writing::write_and_sync;
use crate::{DiskFault, Journal};
use outside_io::{Disk, Failed};

impl<D: Disk> Journal<D> {
    /// How many records there are.
    pub fn count(&self) -> u32
        ensures { result ≡ count_of self.now }
    {
        self.count
    }

    /// The disk under it.
    pub fn disk(&self) -> &D
        ensures { result.now ≡ disk_of self.now }
    {
        &self.disk
    }

    /// Whether a record can be appended without a repair.
    pub fn is_clean(&self) -> bool
        ensures { result ≡ is_clean self.now }
    {
        self.clean
    }

    /// Adds a record. At `Ok` it is acknowledged: each crash leaves it from then on. At a fault the count stays, and
    /// where the journal isn't clean any more the record may be there or not after a crash, until it is repaired.
    pub fn append(&mut self, body: &[u8; 64]) -> Result<(), DiskFault>
        requires room { count_of self.old < most_commands }
        requires clean { IsTrue (is_clean self.old) }
        ensures count { count_of self.new ≡ (if is_ok result then (count_of self.old) + 1 else (count_of self.old)) }
        ensures clean { OnOk result (IsTrue (is_clean self.new)) }
        ensures disk { TellsFaults D.Disk (disk_of self.old) (disk_of self.new) result }
        ensures appends { (bodies : List (List ℕ)) (faulted : List ℕ) → D.honest (disk_of self.new)
            → StandsFor self.old bodies faulted → AppendsOn self.old self.new bodies body.now result }
    {
        let record = staged_record(body);
        let staged = write_and_sync(&mut self.disk, body_place(self.count), &record);
        self.told(staged)?;
        self.clean = false;
        let opened = write_and_sync(&mut self.disk, gate_place(self.count), &[OPEN]);
        self.told(opened)?;
        self.clean = true;
        self.count += 1;
        Ok(())
    }

    /// Makes a journal clean after a fault: the record of that fault is none, from then on. At a fault it stays as
    /// it was.
    pub fn repair(&mut self) -> Result<(), DiskFault>
        requires { is_clean self.old ≡ false }
        ensures count { count_of self.new ≡ count_of self.old }
        ensures clean { is_clean self.new ≡ is_ok result }
        ensures disk { TellsFaults D.Disk (disk_of self.old) (disk_of self.new) result }
        ensures repairs { (bodies : List (List ℕ)) (faulted : List ℕ) → D.honest (disk_of self.new)
            → StandsFor self.old bodies faulted → RepairsOn self.old self.new bodies faulted result }
    {
        let closed = write_and_sync(&mut self.disk, gate_place(self.count), &[CLOSED]);
        self.told(closed)?;
        self.clean = true;
        Ok(())
    }

    /// Gives the disk back.
    pub fn release(self) -> D
        ensures { result ≡ disk_of self }
    {
        let Journal { disk, .. } = self;
        disk
    }

    // A fault of the disk, with the count of its faults.
    pub(crate) fn told(&self, done: Result<(), Failed>) -> Result<(), DiskFault>
        ensures { MatchResult done (λ u. result ≡ Ok u)
            (λ f. result ≡ Err (record { count = D.faults (disk_of self.now) })) }
    {
        match done {
            Ok(()) => Ok(()),
            Err(Failed) => Err(DiskFault {
                count: self.disk.faults(),
            }),
        }
    }
}

// A body and a closed gate.
fn staged_record(body: &[u8; 64]) -> [u8; 65]
    ensures { result ≡ body.now ++ 0 ∷ [] }
{
    let mut record = [CLOSED; 65];
    record[..64].copy_from_slice(body);
    record
}
