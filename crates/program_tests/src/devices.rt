// The program over devices in memory.
ghost use Rattle.std.specs.Prelude.{◌≡◌, ◌≤◌, [], length};
ghost use Rattle.std.specs.List.{AllByRecursion};

use life_app::{Ended, life};
use memory_disk::MemoryDisk;
use outside_io::{BytesSink, BytesSource, Gate, MapShelf, OpenGate, Shelf};
use policy_types::Watcher;
use std::alloc::{AllocError, Global};
use std::collections::BTreeMap;
use std::sync::Wait;
use std::thread::Threads;

// The status with which a run ended, what it wrote, and its disk.
#[derive(Drop)]
pub(crate) struct Finished {
    pub status: u8,
    pub output: BytesSink<MemoryDisk>,
    pub disk: MemoryDisk,
}

impl Finished {
    pub(crate) fn wrote(&self, status: u8, text: &str) -> bool {
        self.status == status && self.output.bytes() == text.as_bytes()
    }
}

pub(crate) fn words_of(alloc: Global, words: &[&str]) -> Result<Vec<String>, AllocError> {
    let mut made = Vec::new(alloc);
    for word in words {
        made.push(String::from_str(alloc, word)?)?;
    }
    Ok(made)
}

// A disk with these bytes, which fails at these calls.
pub(crate) fn disk_of(
    alloc: Global,
    bytes: &[u8],
    failing: &[u64],
) -> Result<MemoryDisk, AllocError> {
    Ok(MemoryDisk::new(
        alloc,
        Vec::from_slice(alloc, bytes)?,
        Vec::from_slice(alloc, failing)?,
    ))
}

// The rates of the ages 0 to 4, and a basis of them without interest.
pub(crate) const Q: &str =
    "<XTbML><Table><Values><Axis><Y t=\"0\">0.1</Y><Y t=\"1\">0.2</Y><Y t=\"2\">0.25</Y><Y t=\"3\">0.5</Y>\
    <Y t=\"4\">1</Y></Axis></Values></Table></XTbML>";

pub(crate) const FLAT: &str = "1900-01-01,q.xml,0\n";

// A name, and the text of the file of that name.
pub(crate) type Text = (&'static str, &'static str);

pub(crate) const BASIS: &[Text] = &[("basis.csv", FLAT), ("q.xml", Q)];

// A shelf with these files, which fails at these calls.
pub(crate) fn shelf_of(
    alloc: Global,
    texts: &[Text],
    failing: &[u64],
) -> Result<MapShelf, AllocError> {
    let mut files = BTreeMap::new(alloc);
    for (name, text) in texts {
        let bytes = Vec::from_slice(alloc, text.as_bytes())?;
        let _ = files.insert(String::from_str(alloc, name)?, bytes)?;
    }
    Ok(MapShelf::new(files, Vec::from_slice(alloc, failing)?))
}

// Does what the arguments ask for, over these devices, with these watchers and this gate.
pub(crate) fn run_beside<R: Threads + Wait + Sync, H: Shelf + Drop, G: Gate + Sync>(
    rt: &R,
    alloc: Global,
    words: &[&str],
    script: &str,
    failing_reads: &[u64],
    failing_writes: &[u64],
    shelf: H,
    disk: MemoryDisk,
    watchers: Vec<Box<dyn Watcher + Send>>,
    gate: &G,
) -> Result<Finished, AllocError>
    requires few { length watchers.items ≤ 16 }
    requires fresh { AllByRecursion (λ b. noted b ≡ []) watchers.items }
{
    let mut shelf = shelf;
    let words = words_of(alloc, words)?;
    let bytes = Vec::from_slice(alloc, script.as_bytes())?;
    let mut input = BytesSource::new(bytes, Vec::from_slice(alloc, failing_reads)?);
    let mut output = BytesSink::new(alloc, Vec::from_slice(alloc, failing_writes)?);
    let Ended {
        status,
        lack: _lack,
        disk,
    } = life(
        rt,
        alloc,
        &words,
        &mut input,
        &mut output,
        &mut shelf,
        disk,
        watchers,
        gate,
    );
    Ok(Finished {
        status,
        output,
        disk,
    })
}

// Does what the arguments ask for over a disk, with these watchers and an empty shelf.
pub(crate) fn run_watched<R: Threads + Wait + Sync>(
    rt: &R,
    alloc: Global,
    words: &[&str],
    script: &str,
    watchers: Vec<Box<dyn Watcher + Send>>,
    disk: MemoryDisk,
) -> Result<Finished, AllocError>
    requires few { length watchers.items ≤ 16 }
    requires fresh { AllByRecursion (λ b. noted b ≡ []) watchers.items }
{
    let shelf = shelf_of(alloc, &[], &[])?;
    run_beside(
        rt,
        alloc,
        words,
        script,
        &[],
        &[],
        shelf,
        disk,
        watchers,
        &OpenGate,
    )
}

// Runs a script over a disk, with a basis and with this gate.
pub(crate) fn run_gated<R: Threads + Wait + Sync, G: Gate + Sync>(
    rt: &R,
    alloc: Global,
    script: &str,
    disk: MemoryDisk,
    gate: &G,
) -> Result<Finished, AllocError> {
    let shelf = shelf_of(alloc, BASIS, &[])?;
    let none = Vec::new(alloc);
    run_beside(
        rt,
        alloc,
        &["run"],
        script,
        &[],
        &[],
        shelf,
        disk,
        none,
        gate,
    )
}

// Runs a script over a disk.
pub(crate) fn run_on<R: Threads + Wait + Sync>(
    rt: &R,
    alloc: Global,
    script: &str,
    disk: MemoryDisk,
) -> Result<Finished, AllocError> {
    run_watched(rt, alloc, &["run"], script, Vec::new(alloc), disk)
}
