// The disk: a history, and the calls that are to fail.
ghost use Rattle.std.specs.Prelude.{◌≡◌, ℕ, List, [], ◌∷◌, ◌++◌, ◌+◌, ◌≤◌, false, true, ◌-◌, ◌^◌, length, min, take, drop, IfOk, OnOk, OnErr, ⊤, ◌⊎◌};
ghost use Rattle.outside_io.specs.Disks.{Writes, Syncs};
ghost use Rattle.outside_io.specs.Plans.{plan_faults, plan_failing, plan_calls};
ghost use Rattle.memory_disk.specs.Disk.{GoesOn, CountsFaults, LooksAt, images_of, disk_first, disk_bytes, disk_calls, disk_plan, FollowsPlan, KeepsOrAdds};
ghost use Rattle.memory_disk.specs.History.{IsImage, WasImage, IsWriteOf, image_of_writes, torn_after};
ghost use Rattle.memory_disk.specs.HistoryLaws.{replayed_image, now_counts, left_sooner, only_now_left};
ghost use Rattle.memory_disk.specs.declared.disk_call.DiskCall.TheVariants.{Len, Read, Sync};

use crate::DiskCall;
use crate::history::History;
use crate::images::image_of;
use crate::torn_images::torn_image_of;
use outside_io::{Disk, Failed, FaultPlan};
use policy_types::NoMemory;
use std::alloc::Global;

/// A disk in memory that follows the disk model. It keeps each call, and fails at the calls whose numbers, counted
/// from 1, it was given. If memory for a call's record is refused, that is a fault too, and the call does nothing
/// else.
#[derive(Drop)]
pub struct MemoryDisk {
    alloc: Global,
    history: History,
    plan: FaultPlan,
}

impl MemoryDisk {
    /// A disk with these bytes, all of them safe.
    pub fn new(alloc: Global, bytes: Vec<u8>, failing: Vec<u64>) -> MemoryDisk
        ensures first { disk_first result ≡ bytes.items }
        ensures bytes { disk_bytes result ≡ bytes.items }
        ensures calls { disk_calls result ≡ [] }
        ensures failing { plan_failing (disk_plan result) ≡ failing.items }
        ensures made { plan_calls (disk_plan result) ≡ 0 }
        ensures faults { plan_faults (disk_plan result) ≡ 0 }
        ensures honest { ⟦<MemoryDisk as Disk>⟧.honest result }
    {
        MemoryDisk {
            alloc,
            history: History::new(alloc, bytes),
            plan: FaultPlan::new(failing),
        }
    }

    /// What a read gives.
    pub fn bytes(&self) -> &[u8]
        ensures { result.now ≡ disk_bytes self.now }
    {
        &self.history.bytes
    }

    /// How many calls it had, except those for whose record memory was refused. The count stands still at its type's
    /// end.
    pub fn calls(&self) -> u32
        ensures { result ≡ min (length (disk_calls self.now)) (2 ^ 32 - 1) }
    {
        u32::try_from(self.history.calls.len()).unwrap_or(u32::MAX)
    }

    /// The bytes after the first `moment` calls, if the first `keep` of the writes that weren't synced yet were done
    /// whole and the others not at all: an image that a crash might have left then.
    pub fn image(&self, alloc: Global, moment: u32, keep: u32) -> Result<Vec<u8>, NoMemory>
        requires { moment ≤ length (disk_calls self.now) }
        ensures kept { IfOk result (λ image. image.items
            ≡ image_of_writes (disk_first self.now) keep (take moment (disk_calls self.now))) }
        ensures possible { IfOk result (λ image. IsImage (disk_first self.now) (take moment (disk_calls self.now)) image.items) }
    {
        let calls = &self.history.calls[..moment as usize];
        image_of(alloc, self.history.first(), calls, keep)
    }

    /// An image that a crash after `moment` calls might have left: the one in which the first `reached` bytes of each
    /// write since the last sync reached the disk. A write that begins past the image's end is lost.
    pub fn torn_image(
        &self,
        alloc: Global,
        moment: u32,
        reached: usize,
    ) -> Result<Vec<u8>, NoMemory>
        requires { moment ≤ length (disk_calls self.now) }
        ensures torn { IfOk result (λ image. image.items ≡ torn_after (disk_first self.now)
            (disk_first self.now) reached (take moment (disk_calls self.now))) }
        ensures possible { IfOk result (λ image. IsImage (disk_first self.now) (take moment (disk_calls self.now)) image.items) }
    {
        let calls = &self.history.calls[..moment as usize];
        torn_image_of(alloc, self.history.first(), calls, reached)
    }

    /// All calls, in order.
    pub fn made(&self) -> &[DiskCall]
        ensures { result.now ≡ disk_calls self.now }
    {
        &self.history.calls
    }
}

impl Disk for MemoryDisk {
    ghost faults = { λ disk. plan_faults (disk_plan disk) };

    ghost honest = { λ disk. ⊤ };

    ghost reads = { λ disk. disk_bytes disk };

    ghost may_leave = { λ disk image. IsImage (disk_first disk) (disk_calls disk) image };

    ghost clock = { λ disk. length (disk_calls disk) };

    ghost left_since = { λ disk moment image. WasImage (disk_first disk) (disk_calls disk) moment image };

    ghost reads_as_image = { λ disk known. replayed_image (disk_first disk) (disk_bytes disk)
        (disk_calls disk) disk.history.replayed disk.history.within };

    ghost counts_now = { λ disk moment image known passed left. now_counts (disk_first disk)
        (disk_calls disk) moment image passed left };

    ghost only_now = { λ disk image known left. only_now_left (disk_first disk) (disk_calls disk) image left };

    ghost sooner = { λ disk early late image known before left.
        left_sooner (disk_first disk) (disk_calls disk) early late image before left };

    fn faults(&self) -> u64 {
        self.plan.faults()
    }

    fn len(&mut self) -> Result<u64, Failed>
        ensures cause { CountsFaults self.old self.new result }
        ensures length { IfOk result (λ n. n ≡ length (disk_bytes self.old)) }
        ensures facts { LooksAt self.old self.new }
        ensures time { GoesOn self.old self.new }
        ensures planned { FollowsPlan (disk_plan self.old) (disk_plan self.new) result }
        ensures kept { OnOk result (disk_calls self.new ≡ disk_calls self.old ++ Len false ∷ []) }
        ensures missed { OnErr result (KeepsOrAdds (disk_calls self.old) (disk_calls self.new) (Len true)) }
    {
        let failed = self.plan.fails_next();
        if !self.history.note(DiskCall::Len { failed }) || failed {
            self.plan.add_fault();
            return Err(Failed);
        }
        Ok(self.history.bytes.len() as u64)
    }

    fn read(&mut self, at: u64, buf: &mut [u8]) -> Result<(), Failed>
        requires { at + length buf.old ≤ length (disk_bytes self.old) }
        ensures cause { CountsFaults self.old self.new result }
        ensures bytes { OnOk result (buf.new ≡ take (length buf.old) (drop at (disk_bytes self.old))) }
        ensures facts { LooksAt self.old self.new }
        ensures time { GoesOn self.old self.new }
        ensures planned { FollowsPlan (disk_plan self.old) (disk_plan self.new) result }
        ensures kept { OnOk result (disk_calls self.new ≡ disk_calls self.old ++ Read at (length buf.old) false ∷ []) }
        ensures missed { OnErr result (KeepsOrAdds (disk_calls self.old) (disk_calls self.new) (Read at (length buf.old) true)) }
    {
        let failed = self.plan.fails_next();
        let many = buf.len();
        if !self.history.note(DiskCall::Read { at, many, failed }) || failed {
            self.plan.add_fault();
            return Err(Failed);
        }
        let from = at as usize;
        buf.copy_from_slice(&self.history.bytes[from..from + many]);
        Ok(())
    }

    fn write_at(&mut self, at: u64, bytes: &[u8]) -> Result<(), Failed>
        requires { at ≤ length (disk_bytes self.old) }
        ensures cause { CountsFaults self.old self.new result }
        ensures facts { Writes at bytes.now result (disk_bytes self.old) (disk_bytes self.new)
            (images_of self.old) (images_of self.new) }
        ensures time { GoesOn self.old self.new }
        ensures planned { FollowsPlan (disk_plan self.old) (disk_plan self.new) result }
        ensures kept { OnOk result (IsWriteOf at bytes.now false (disk_calls self.old) (disk_calls self.new)) }
        ensures missed { OnErr result ((disk_calls self.new ≡ disk_calls self.old)
            ⊎ IsWriteOf at bytes.now true (disk_calls self.old) (disk_calls self.new)) }
    {
        let failed = self.plan.fails_next();
        if !self.history.write(self.alloc, at, bytes, failed) {
            self.plan.add_fault();
            return Err(Failed);
        }
        if failed {
            self.plan.add_fault();
            return Err(Failed);
        }
        Ok(())
    }

    fn sync(&mut self) -> Result<(), Failed>
        ensures cause { CountsFaults self.old self.new result }
        ensures facts { Syncs result (disk_bytes self.old) (disk_bytes self.new)
            (images_of self.old) (images_of self.new) }
        ensures time { GoesOn self.old self.new }
        ensures planned { FollowsPlan (disk_plan self.old) (disk_plan self.new) result }
        ensures kept { OnOk result (disk_calls self.new ≡ disk_calls self.old ++ Sync false ∷ []) }
        ensures missed { OnErr result (KeepsOrAdds (disk_calls self.old) (disk_calls self.new) (Sync true)) }
    {
        let failed = self.plan.fails_next();
        if !self.history.note_sync(failed) || failed {
            self.plan.add_fault();
            return Err(Failed);
        }
        Ok(())
    }
}
