// A disk that gives one wrong byte. From then on it isn't honest, so nothing is promised about it; this test says
// what the program does then.
ghost use Rattle.std.specs.Prelude.{◌≡◌, ℕ, ◌+◌, ◌≤◌, false, List, length, take, drop, IfOk, OnOk};
ghost use Rattle.outside_io.specs.Disks.{Elapses, HasDiskCause, Looks, Syncs, Writes};

use outside_io::{Disk, Failed};

/// Gives a wrong byte at this place in its read with that number, counted from 1, and fails from then on.
#[derive(Drop)]
pub(crate) struct LyingDisk<D: Disk + Drop> {
    pub disk: D,
    pub lied: bool,
    pub reads: u64,
    pub lie: u64,
    pub place: usize,
}

impl<D: Disk + Drop> Disk for LyingDisk<D> {
    ghost faults = { λ liar. D.faults liar.disk };

    ghost honest = { λ liar. (liar.lied ≡ false) × D.honest liar.disk };

    ghost reads = { λ liar. D.reads liar.disk };

    ghost may_leave = { λ liar image. D.may_leave liar.disk image };

    ghost clock = { λ liar. D.clock liar.disk };

    ghost left_since = { λ liar moment image. D.left_since liar.disk moment image };

    ghost reads_as_image = { λ liar known. D.reads_as_image liar.disk known.1 };

    ghost counts_now = { λ liar moment image known passed left. D.counts_now liar.disk moment image known.1 passed left };

    ghost only_now = { λ liar image known left. D.only_now liar.disk image known.1 left };

    ghost sooner = { λ liar early late image known before left. D.sooner liar.disk early late image known.1 before left };

    fn faults(&self) -> u64 {
        self.disk.faults()
    }

    fn len(&mut self) -> Result<u64, Failed> {
        if self.lied {
            return Ok(0);
        }
        self.disk.len()
    }

    fn read(&mut self, at: u64, buf: &mut [u8]) -> Result<(), Failed> {
        if self.lied {
            return Ok(());
        }
        self.reads = self.reads.saturating_add(1);
        let answer = self.disk.read(at, buf);
        if self.reads == self.lie {
            self.lied = true;
            lie_in(buf, self.place);
        }
        answer
    }

    fn write_at(&mut self, at: u64, bytes: &[u8]) -> Result<(), Failed> {
        if self.lied {
            return Ok(());
        }
        self.disk.write_at(at, bytes)
    }

    fn sync(&mut self) -> Result<(), Failed> {
        if self.lied {
            return Ok(());
        }
        self.disk.sync()
    }
}

fn lie_in(bytes: &mut [u8], place: usize)
    ensures { length bytes.new ≡ length bytes.old }
{
    if let Some(byte) = bytes.get_mut(place) {
        *byte ^= 1;
    }
}
