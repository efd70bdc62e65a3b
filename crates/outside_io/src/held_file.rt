// A file of the system that has to stay the one under its name, and as long as it was.
ghost use Rattle.std.specs.Prelude.{◌≡◌, false, IsErr};

use std::fs::{File, Metadata, OpenOptions};
use std::io::ErrorKind;
use std::os::unix::fs::{FileExt, MetadataExt};
use std::rt::Files;
use std::{fs, io};

// A file that was opened under a name: whether it may be written, which file it is, its length so far, what was
// written since the last sync, and whether it was found to be cut or no longer there. Once it was, nothing is written
// to it.
#[derive(Drop)]
pub(crate) struct HeldFile {
    file: File,
    is_writable: bool,
    device: u64,
    inode: u64,
    length: u64,
    written: Written,
    lost: bool,
}

// Where writes since the last sync went: nowhere, only past what was then the end, or also over bytes that were
// there.
#[derive(Clone, Copy)]
enum Written {
    Nothing,
    Behind,
    Over,
}

impl HeldFile {
    // Opens the file, or makes it, and cuts nothing off. It is locked against other processes that do the same. If it
    // may not be written, it is opened to be read; the result is none if there is no file and none may be made.
    pub(crate) fn open<R: Files<File = File> + AllocGlobal>(
        files: &R,
        name: &str,
    ) -> io::Result<Option<HeldFile>> {
        match open_to_write(files, name) {
            Ok(file) => Ok(Some(HeldFile::hold(files, name, file, true)?)),
            Err(e) if is_refusal(e.kind()) => HeldFile::open_to_read(files, name),
            Err(e) => Err(e),
        }
    }

    fn open_to_read<R: Files<File = File> + AllocGlobal>(
        files: &R,
        name: &str,
    ) -> io::Result<Option<HeldFile>> {
        match File::open(files, name) {
            Ok(file) => Ok(Some(HeldFile::hold(files, name, file, false)?)),
            Err(e) if e.kind() == ErrorKind::NotFound => Ok(None),
            Err(e) => Err(e),
        }
    }

    fn hold<R: Files<File = File> + AllocGlobal>(
        files: &R,
        name: &str,
        file: File,
        is_writable: bool,
    ) -> io::Result<HeldFile> {
        if file.try_lock().is_err() {
            return Err(io::Error::from(ErrorKind::WouldBlock));
        }
        sync_folder(files, name)?;
        let told = ask(files, Asked::Open(&file))?;
        Ok(HeldFile {
            file,
            is_writable,
            device: told.dev(),
            inode: told.ino(),
            length: told.len(),
            written: Written::Nothing,
            lost: false,
        })
    }

    // The length of the file. It is a failure if the file got shorter.
    pub(crate) fn length<R: Files<File = File>>(&mut self, files: &R) -> io::Result<u64> {
        let told = ask(files, Asked::Open(&self.file))?.len();
        if told < self.length {
            self.lost = true;
            return Err(lost());
        }
        self.length = told;
        Ok(told)
    }

    pub(crate) fn fill(&self, at: u64, buf: &mut [u8]) -> io::Result<()> {
        self.file.read_exact_at(buf, at)
    }

    // A write past the end would hide that the file was cut, so the open file is looked at before such a write.
    pub(crate) fn put<R: Files<File = File>>(
        &mut self,
        files: &R,
        at: u64,
        bytes: &[u8],
    ) -> io::Result<()>
        ensures unwritable { self.old.is_writable ≡ false → IsErr result }
    {
        if !self.is_writable {
            return Err(io::Error::from(ErrorKind::PermissionDenied));
        }
        let end = at.saturating_add(bytes.len() as u64);
        if end > self.length || self.lost {
            self.look(files, None)?;
        }
        self.written = match self.written {
            Written::Nothing | Written::Behind if at >= self.length => Written::Behind,
            _ => Written::Over,
        };
        self.file.write_all_at(bytes, at)?;
        self.length = self.length.max(end);
        Ok(())
    }

    // Nothing is safe in a file that is no longer under its name, so the name is looked up after a sync. It isn't
    // after a sync of bytes past the end alone: they count for nothing until a byte before them is written and made
    // safe too.
    pub(crate) fn make_safe<R: Files<File = File>>(
        &mut self,
        files: &R,
        name: &str,
    ) -> io::Result<()> {
        self.file.sync_all()?;
        if self.lost || !matches!(self.written, Written::Behind) {
            self.look(files, Some(name))?;
        }
        self.written = Written::Nothing;
        Ok(())
    }

    // Fails if the name stands for no file or for another one, or if the open file has no name or was cut; and fails
    // ever after.
    fn look<R: Files<File = File>>(&mut self, files: &R, name: Option<&str>) -> io::Result<()> {
        if self.lost {
            return Err(lost());
        }
        let asked = match name {
            Some(name) => Asked::Named(name),
            None => Asked::Open(&self.file),
        };
        let found = match ask(files, asked) {
            Ok(found) => found,
            Err(e) => {
                self.lost = e.kind() == ErrorKind::NotFound;
                return Err(e);
            }
        };
        let is_same = found.dev() == self.device && found.ino() == self.inode;
        self.lost = !is_same || found.nlink() == 0 || found.len() < self.length;
        if self.lost {
            return Err(lost());
        }
        Ok(())
    }
}

fn open_to_write<R: Files<File = File>>(files: &R, name: &str) -> io::Result<File> {
    OpenOptions::new()
        .read(true)
        .write(true)
        .create(true)
        .open(files, name)
}

// The disk didn't fail, but writing is refused: to this user, for this file, or on this file system.
fn is_refusal(kind: ErrorKind) -> bool {
    matches!(
        kind,
        ErrorKind::PermissionDenied | ErrorKind::ReadOnlyFilesystem
    )
}

fn lost() -> io::Error {
    io::Error::from(ErrorKind::NotFound)
}

// The file is safe only once its folder is, which for a symbolic link is the folder in which the file itself lies. An
// earlier run that made the file may have ended before it made the folder safe, so every run does it.
fn sync_folder<R: Files<File = File> + AllocGlobal>(files: &R, name: &str) -> io::Result<()> {
    if !ask(files, Asked::Entry(name))?.is_symlink() {
        return File::open(files, ".")?.sync_all();
    }
    let path = files.canonicalize(files.alloc(), name)?;
    match path.parent() {
        Some(folder) => File::open(files, folder)?.sync_all(),
        None => Err(io::Error::from(ErrorKind::NotFound)),
    }
}

// What is asked about: the open file, the file under a name, or the name itself, which may be a symbolic link.
#[derive(Clone, Copy)]
enum Asked<'a> {
    Open(&'a File),
    Named(&'a str),
    Entry(&'a str),
}

// A question that a signal interrupted is asked again.
fn ask<R: Files<File = File>>(files: &R, asked: Asked<'_>) -> io::Result<Metadata> {
    for _ in 0..u64::MAX {
        match ask_once(files, asked) {
            Ok(told) => return Ok(told),
            Err(e) if e.kind() == ErrorKind::Interrupted => {}
            Err(e) => return Err(e),
        }
    }
    Err(io::Error::from(ErrorKind::TimedOut))
}

fn ask_once<R: Files<File = File>>(files: &R, asked: Asked<'_>) -> io::Result<Metadata> {
    match asked {
        Asked::Open(file) => file.metadata(),
        Asked::Named(name) => fs::metadata(files, name),
        Asked::Entry(name) => fs::symlink_metadata(files, name),
    }
}
