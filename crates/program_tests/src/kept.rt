// The program over two disks in memory: the journal's, and the one of its checkpoints.
use crate::devices::{BASIS, disk_of, shelf_of, words_of};
use life_app::{EndedKept, life_kept};
use memory_disk::MemoryDisk;
use outside_io::{BytesSink, BytesSource, OpenGate};
use std::alloc::{AllocError, Global};
use std::sync::Wait;
use std::thread::Threads;

// The status with which a run ended, what it wrote, and its two disks.
#[derive(Drop)]
pub(crate) struct Kept {
    pub status: u8,
    pub output: BytesSink<MemoryDisk>,
    pub disk: MemoryDisk,
    pub second: MemoryDisk,
}

// Does what the arguments ask for over two disks, with a shelf that has a basis, and with an output that fails at
// these calls.
pub(crate) fn keep_beside<R: Threads + Wait + Sync>(
    rt: &R,
    alloc: Global,
    words: &[&str],
    script: &str,
    failing_writes: &[u64],
    disk: MemoryDisk,
    second: MemoryDisk,
) -> Result<Kept, AllocError> {
    let words = words_of(alloc, words)?;
    let bytes = Vec::from_slice(alloc, script.as_bytes())?;
    let mut shelf = shelf_of(alloc, BASIS, &[])?;
    let mut input = BytesSource::new(bytes, Vec::new(alloc));
    let mut output = BytesSink::new(alloc, Vec::from_slice(alloc, failing_writes)?);
    let EndedKept {
        status,
        lack: _lack,
        disk,
        second,
    } = life_kept(
        rt,
        alloc,
        &words,
        &mut input,
        &mut output,
        &mut shelf,
        disk,
        second,
        Vec::new(alloc),
        &OpenGate,
    );
    Ok(Kept {
        status,
        output,
        disk,
        second,
    })
}

// The same with an output that doesn't fail.
pub(crate) fn keep<R: Threads + Wait + Sync>(
    rt: &R,
    alloc: Global,
    words: &[&str],
    script: &str,
    disk: MemoryDisk,
    second: MemoryDisk,
) -> Result<Kept, AllocError> {
    keep_beside(rt, alloc, words, script, &[], disk, second)
}

// What a script leaves of an empty disk.
pub(crate) fn journal_of<R: Threads + Wait + Sync>(
    rt: &R,
    alloc: Global,
    script: &str,
) -> Result<MemoryDisk, AllocError> {
    let (disk, second) = (disk_of(alloc, &[], &[])?, disk_of(alloc, &[], &[])?);
    let ran = keep(rt, alloc, &["run"], script, disk, second)?;
    Ok(ran.disk)
}

impl Kept {
    pub(crate) fn wrote(&self, status: u8, text: &str) -> bool {
        self.status == status && self.output.bytes() == text.as_bytes()
    }
}
