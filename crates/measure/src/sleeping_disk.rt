// A disk in memory that takes its time to sync.
ghost use Rattle.std.specs.Prelude.{◌≡◌, ℕ, List, []};
ghost use Rattle.outside_io.specs.Disks.{HasDiskCause};

use outside_io::{Disk, Failed};
use std::alloc::Global;
use std::rt::Clock;
use std::thread::sleep;
use std::time::Duration;

/// How long a sync takes.
const SYNC_MICROSECONDS: u64 = 50;

/// A file in memory, at first empty, whose sync sleeps as long as that of a fast disk. So what a lock costs beside a
/// posting shows on a machine whose disk is busy too. It has no crashes, so nothing is said of any.
#[derive(Drop)]
pub struct SleepingDisk<'a, R: Clock> {
    rt: &'a R,
    bytes: Vec<u8>,
    faults: u64,
}

impl<'a, R: Clock> SleepingDisk<'a, R> {
    pub fn new(rt: &'a R, alloc: Global) -> SleepingDisk<'a, R> {
        SleepingDisk {
            rt,
            bytes: Vec::new(alloc),
            faults: 0,
        }
    }

    // Counts a call that failed.
    fn failed(&mut self) -> Result<(), Failed>
        ensures { HasDiskCause self.old.faults self.new.faults result }
    {
        self.faults = self.faults.saturating_add(1);
        Err(Failed)
    }
}

impl<'a, R: Clock> Disk for SleepingDisk<'a, R> {
    ghost faults = { λ disk. disk.faults };

    ghost honest = { λ disk. ⊥ };

    ghost reads = { λ disk. [] };

    ghost may_leave = { λ disk image. ⊥ };

    ghost clock = { λ disk. 0 };

    ghost left_since = { λ disk moment image. ⊥ };

    ghost reads_as_image = { λ disk known. absurd known };

    ghost counts_now = { λ disk moment image known passed left. absurd known };

    ghost only_now = { λ disk image known left. absurd known };

    ghost sooner = { λ disk early late image known before left. absurd known };

    fn faults(&self) -> u64 {
        self.faults
    }

    fn len(&mut self) -> Result<u64, Failed> {
        Ok(self.bytes.len() as u64)
    }

    fn read(&mut self, at: u64, buf: &mut [u8]) -> Result<(), Failed> {
        let start = at as usize;
        if start > self.bytes.len() || buf.len() > self.bytes.len() - start {
            return self.failed();
        }
        buf.copy_from_slice(&self.bytes[start..start + buf.len()]);
        Ok(())
    }

    fn write_at(&mut self, at: u64, bytes: &[u8]) -> Result<(), Failed> {
        let start = at as usize;
        if start > self.bytes.len() {
            return self.failed();
        }
        let over = bytes.len().min(self.bytes.len() - start);
        if self.bytes.extend_from_slice(&bytes[over..]).is_err() {
            return self.failed();
        }
        self.bytes[start..start + over].copy_from_slice(&bytes[..over]);
        Ok(())
    }

    fn sync(&mut self) -> Result<(), Failed> {
        sleep(self.rt, Duration::from_micros(SYNC_MICROSECONDS));
        Ok(())
    }
}
