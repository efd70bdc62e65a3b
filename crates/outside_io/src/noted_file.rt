// A file of the system. Each call is noted together with the system's answer; only contracts read the notes.
ghost use Rattle.std.specs.Prelude.{◌≡◌, [], ◌∷◌, Some, None, length, false, is_ok, OnOk, IsErr, IsTrue, if◌then◌else◌};
ghost use Rattle.std.specs.Result.{result_ok};
ghost use Rattle.outside_io.specs.Disks.{HasDiskCause};
ghost use Rattle.outside_io.specs.FileCalls.{Measured, ReadFrom, WrittenTo, Synced, sync_failed};

use crate::Failed;
use crate::counting::counted;
use crate::file_calls::FileCalls;
use crate::held_file::HeldFile;
use std::fs::File;
use std::io;
use std::io::ErrorKind;
use std::rt::Files;

// The file with a name in the folder in which the program runs. The first call opens or makes it, and cuts nothing
// off. It is locked against other processes that do the same, until it is dropped. These calls fail and are counted
// as faults: any call while another process has the lock, a call that finds the file cut or no longer under its name,
// and each sync after one that failed.
#[derive(Drop)]
pub(crate) struct NotedFile<R: Files<File = File> + AllocGlobal> {
    files: R,
    name: &'static str,
    slot: Slot,
    stopped: bool,
    pub(crate) faults: u64,
    pub(crate) calls: FileCalls,
    ghost unfailed: { stopped ≡ false → sync_failed calls ≡ false },
}

// What is known of the file: nothing before the first call; after it, either that it is open and locked, or that
// there is none and none can be made, which reads as an empty file.
#[derive(Drop)]
enum Slot {
    Unopened,
    Held(HeldFile),
    Missing,
}

impl<R: Files<File = File> + AllocGlobal> NotedFile<R> {
    // A file that was not touched yet.
    pub(crate) fn at(files: R, name: &'static str) -> NotedFile<R>
        ensures name { result.name.now ≡ name.now }
        ensures faults { result.faults ≡ 0 }
        ensures calls { result.calls ≡ [] }
    {
        NotedFile {
            files,
            name,
            slot: Slot::Unopened,
            stopped: false,
            faults: 0,
            calls: FileCalls::new(),
        }
    }

    pub(crate) fn len(&mut self) -> Result<u64, Failed>
        ensures cause { HasDiskCause self.old.faults self.new.faults result }
        ensures name { self.new.name.now ≡ self.old.name.now }
        ensures noted { self.new.calls ≡ Measured (result_ok result) ∷ self.old.calls }
    {
        // The length that the system reports of the open file, asked for once, or that it reported none.
        let told = ask_length(&self.files, self.name, &mut self.slot);
        let told = counted(told, &mut self.faults);
        // What is noted is what is returned.
        self.calls.note_length(&told);
        told
    }

    pub(crate) fn read(&mut self, at: u64, buf: &mut [u8]) -> Result<(), Failed>
        ensures cause { HasDiskCause self.old.faults self.new.faults result }
        ensures name { self.new.name.now ≡ self.old.name.now }
        ensures noted { self.new.calls
            ≡ ReadFrom at (length buf.old) (if is_ok result then Some buf.new else None) ∷ self.old.calls }
    {
        // Success says that the system filled the whole buffer from that place of the file on.
        let filled = fill(&self.files, self.name, &mut self.slot, at, buf);
        let filled = counted(filled, &mut self.faults);
        // The buffer is noted as the system left it; nothing has written it since.
        self.calls.note_read(at, buf, filled.is_ok());
        filled
    }

    pub(crate) fn write(&mut self, at: u64, bytes: &[u8]) -> Result<(), Failed>
        ensures cause { HasDiskCause self.old.faults self.new.faults result }
        ensures name { self.new.name.now ≡ self.old.name.now }
        ensures noted { self.new.calls ≡ WrittenTo at bytes.now (is_ok result) ∷ self.old.calls }
    {
        // Success says that the system took all the bytes at that place; after a failure some of them may have been
        // written.
        let written = put(&self.files, self.name, &mut self.slot, at, bytes);
        let written = counted(written, &mut self.faults);
        // It is noted after a failure too, since a part may have been written.
        self.calls.note_write(at, bytes, written.is_ok());
        written
    }

    pub(crate) fn sync(&mut self) -> Result<(), Failed>
        ensures cause { HasDiskCause self.old.faults self.new.faults result }
        ensures name { self.new.name.now ≡ self.old.name.now }
        ensures noted { self.new.calls ≡ Synced (is_ok result) ∷ self.old.calls }
        ensures unfailed { OnOk result (sync_failed self.old.calls ≡ false) }
    {
        // Success says that the system made safe what was written; after a failure nothing may be safe.
        let synced = make_safe(&self.files, self.name, &mut self.slot, self.stopped);
        let synced = counted(synced, &mut self.faults);
        self.stopped = synced.is_err();
        // It is noted after a failure too, and if the system wasn't asked.
        self.calls.note_sync(synced.is_ok());
        synced
    }
}

fn ask_length<R: Files<File = File> + AllocGlobal>(
    files: &R,
    name: &str,
    slot: &mut Slot,
) -> io::Result<u64> {
    match opened(files, name, slot)? {
        Some(file) => file.length(files),
        None => Ok(0),
    }
}

fn fill<R: Files<File = File> + AllocGlobal>(
    files: &R,
    name: &str,
    slot: &mut Slot,
    at: u64,
    buf: &mut [u8],
) -> io::Result<()> {
    match opened(files, name, slot)? {
        Some(file) => file.fill(at, buf),
        None if buf.is_empty() => Ok(()),
        None => Err(io::Error::from(ErrorKind::UnexpectedEof)),
    }
}

fn put<R: Files<File = File> + AllocGlobal>(
    files: &R,
    name: &str,
    slot: &mut Slot,
    at: u64,
    bytes: &[u8],
) -> io::Result<()> {
    match opened(files, name, slot)? {
        Some(file) => file.put(files, at, bytes),
        None => Err(io::Error::from(ErrorKind::NotFound)),
    }
}

// After a failure the system may drop what it couldn't write, and report success the next time. So it isn't asked
// again.
fn make_safe<R: Files<File = File> + AllocGlobal>(
    files: &R,
    name: &str,
    slot: &mut Slot,
    stopped: bool,
) -> io::Result<()>
    ensures stopped { IsTrue stopped → IsErr result }
{
    if stopped {
        return Err(io::Error::from(ErrorKind::Other));
    }
    match opened(files, name, slot)? {
        Some(file) => file.make_safe(files, name),
        None => Ok(()),
    }
}

// The file, which the first call opens or makes if that can be done.
fn opened<'a, R: Files<File = File> + AllocGlobal>(
    files: &R,
    name: &str,
    slot: &'a mut Slot,
) -> io::Result<Option<&'a mut HeldFile>> {
    if matches!(slot, Slot::Unopened) {
        *slot = match HeldFile::open(files, name)? {
            Some(file) => Slot::Held(file),
            None => Slot::Missing,
        };
    }
    match slot {
        Slot::Held(file) => Ok(Some(file)),
        _ => Ok(None),
    }
}
