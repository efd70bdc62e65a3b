// What the program is given in a case, where a device fails, and what it must end with, write and leave.
use crate::devices::{Finished, Text, disk_of, run_beside, shelf_of};
use outside_io::OpenGate;
use std::alloc::{AllocError, Global};
use std::sync::Wait;
use std::thread::Threads;

// A file in parts.
pub(crate) type File = &'static [&'static [u8]];

// The call of a device that fails, counted from 1.
#[derive(Clone, Copy)]
pub(crate) enum Failing {
    Nothing,
    Read(u64),
    Write(u64),
    Fetch(u64),
    Disk(u64),
}

// Each of the failures happens in a run of its own.
pub(crate) struct Case {
    pub(crate) words: &'static [&'static str],
    pub(crate) script: &'static str,
    pub(crate) shelf: &'static [Text],
    pub(crate) journal: File,
    pub(crate) failing: &'static [Failing],
    pub(crate) status: u8,
    pub(crate) written: &'static str,
    pub(crate) left: File,
}

pub(crate) fn bytes_of(alloc: Global, file: File) -> Result<Vec<u8>, AllocError> {
    let mut bytes = Vec::new(alloc);
    for part in file {
        bytes.extend_from_slice(part)?;
    }
    Ok(bytes)
}

fn done<R: Threads + Wait + Sync>(
    rt: &R,
    alloc: Global,
    case: &Case,
    failing: Failing,
) -> Result<Finished, AllocError> {
    // No call has the number 0.
    let (read, write, fetch, call) = match failing {
        Failing::Nothing => (0, 0, 0, 0),
        Failing::Read(call) => (call, 0, 0, 0),
        Failing::Write(call) => (0, call, 0, 0),
        Failing::Fetch(call) => (0, 0, call, 0),
        Failing::Disk(call) => (0, 0, 0, call),
    };
    let journal = bytes_of(alloc, case.journal)?;
    let disk = disk_of(alloc, journal.as_slice(), &[call])?;
    let shelf = shelf_of(alloc, case.shelf, &[fetch])?;
    let none = Vec::new(alloc);
    run_beside(
        rt,
        alloc,
        case.words,
        case.script,
        &[read],
        &[write],
        shelf,
        disk,
        none,
        &OpenGate,
    )
}

// Whether the case ends as it must. At 2, 3, 4 and 6 the disk isn't even called.
pub(crate) fn holds<R: Threads + Wait + Sync>(
    rt: &R,
    alloc: Global,
    case: &Case,
    failing: Failing,
) -> Result<bool, AllocError> {
    let ran = done(rt, alloc, case, failing)?;
    let left = bytes_of(alloc, case.left)?;
    let untouched = (ran.disk.calls() == 0) == matches!(case.status, 2 | 3 | 4 | 6);
    Ok(untouched && ran.wrote(case.status, case.written) && ran.disk.bytes() == left.as_slice())
}
