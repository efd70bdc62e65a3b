// A disk: one file, whose bytes are read and written by place.
ghost use Rattle.std.specs.Prelude.{◌≡◌, ℕ, ◌+◌, ◌-◌, ◌≤◌, List, length, take, drop, IfOk, OnOk};
ghost use Rattle.outside_io.specs.Disks.{HasDiskCause, Looks, Writes, Syncs, Elapses};

use crate::Failed;

/// A file of bytes. Its count of faults never falls, and a call that succeeds doesn't change it.
///
/// A disk is honest if it follows the disk model: between two syncs each range that was written, and the part past
/// the old end, may hold any bytes after a crash, and the length may be any between the old and the new; bytes
/// elsewhere stay. A write that fails counts as a write of its range. After a sync that succeeds, a crash leaves
/// exactly what a read gives.
///
/// Honesty is a property of the disk up to now: a later answer of a real disk may break it. So a contract says what a
/// call did under the premise that the disk that comes back is honest, from which it follows that it was honest
/// before.
pub trait Disk {
    /// The number of faults so far.
    ghost faults: { Self → ℕ };

    /// Each answer so far is one that the disk model allows, and nobody else writes the file.
    ghost honest: { Self → Type 0 };

    /// What reads give if the disk is honest.
    ghost reads: { Self → List ℕ };

    /// What a crash at this moment may leave.
    ghost may_leave: { Self → List ℕ → Type 0 };

    /// The moment, as a number that doesn't fall.
    ghost clock: { Self → ℕ };

    /// What a crash at the given moment or later, during a call or between two, might have left.
    ghost left_since: { Self → ℕ → List ℕ → Type 0 };

    /// The number of faults so far. The count stands still at its type's end.
    fn faults(&self) -> u64
        ensures { result ≡ faults self.now };

    /// The length of the file in bytes.
    fn len(&mut self) -> Result<u64, Failed>
        ensures cause { HasDiskCause (faults self.old) (faults self.new) result }
        ensures honesty { honest self.new → honest self.old }
        ensures length { honest self.new → IfOk result (λ n. n ≡ length (reads self.old)) }
        ensures facts { honest self.new
            → Looks (reads self.old) (reads self.new) (may_leave self.old) (may_leave self.new) }
        ensures time { honest self.new → Elapses (clock self.old) (clock self.new)
            (left_since self.old) (left_since self.new) (may_leave self.new) };

    /// Fills the buffer with the bytes from the place `at` on.
    fn read(&mut self, at: u64, buf: &mut [u8]) -> Result<(), Failed>
        requires { honest self.old → at + length buf.old ≤ length (reads self.old) }
        ensures cause { HasDiskCause (faults self.old) (faults self.new) result }
        ensures honesty { honest self.new → honest self.old }
        ensures bytes { honest self.new
            → OnOk result (buf.new ≡ take (length buf.old) (drop at (reads self.old))) }
        ensures facts { honest self.new
            → Looks (reads self.old) (reads self.new) (may_leave self.old) (may_leave self.new) }
        ensures time { honest self.new → Elapses (clock self.old) (clock self.new)
            (left_since self.old) (left_since self.new) (may_leave self.new) };

    /// Writes the bytes from the place `at` on, over what is there and past the end.
    fn write_at(&mut self, at: u64, bytes: &[u8]) -> Result<(), Failed>
        requires { honest self.old → at ≤ length (reads self.old) }
        ensures cause { HasDiskCause (faults self.old) (faults self.new) result }
        ensures honesty { honest self.new → honest self.old }
        ensures facts { honest self.new → Writes at bytes.now result (reads self.old)
            (reads self.new) (may_leave self.old) (may_leave self.new) }
        ensures time { honest self.new → Elapses (clock self.old) (clock self.new)
            (left_since self.old) (left_since self.new) (may_leave self.new) };

    /// Makes safe what was written: after a success, a crash leaves what is read.
    fn sync(&mut self) -> Result<(), Failed>
        ensures cause { HasDiskCause (faults self.old) (faults self.new) result }
        ensures honesty { honest self.new → honest self.old }
        ensures facts { honest self.new → Syncs result (reads self.old) (reads self.new)
            (may_leave self.old) (may_leave self.new) }
        ensures time { honest self.new → Elapses (clock self.old) (clock self.new)
            (left_since self.old) (left_since self.new) (may_leave self.new) };

    /// What is read is one of the images that a crash may leave.
    ghost reads_as_image: { (disk : Self) → honest disk → may_leave disk (reads disk) };

    /// What a crash may leave now is among what one might have left since any earlier moment.
    ghost counts_now: { (disk : Self) (moment : ℕ) (image : List ℕ) → honest disk
        → moment ≤ clock disk → may_leave disk image → left_since disk moment image };

    /// Since the present moment a crash can leave nothing else than what it may leave now.
    ghost only_now: { (disk : Self) (image : List ℕ) → honest disk
        → left_since disk (clock disk) image → may_leave disk image };

    /// What a crash might have left since a moment is among what it might have left since each earlier one.
    ghost sooner: { (disk : Self) (early late : ℕ) (image : List ℕ) → honest disk → early ≤ late
        → left_since disk late image → left_since disk early image };
}
