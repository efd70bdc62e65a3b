// A real file as a disk. It is honest if each of its answers is one that the disk model allows.
ghost use Rattle.std.specs.Prelude.{◌≡◌, ◌<◌, ℕ, List, [], true, length};
ghost use Rattle.std.specs.Option.{ForSome};
ghost use Rattle.outside_io.specs.FileCalls.{file_reads, writes_within, AreAllowed, FileImage, FileLeft};
ghost use Rattle.outside_io.specs.FileLaws.{reads_as_left, left_by_now, left_only_now, left_sooner};

use crate::found_file::FoundFile;
use crate::noted_file::NotedFile;
use crate::{Disk, Failed};
use std::fs::File;
use std::marker::PhantomData;
use std::rt::Files;

/// The file with a name in the folder in which the program runs. The first call opens or makes it, and cuts nothing
/// off. It is locked against other processes that do the same, until it is dropped. These calls fail and are counted
/// as faults: any call while another process has the lock; a write past the end, if the file was removed or cut; and
/// a sync, if the file was removed, renamed, replaced or cut. A sync of bytes past the end alone isn't checked so: a
/// write within the file and its sync have to follow it.
#[derive(Drop)]
pub struct FileDisk<R: Files<File = File> + AllocGlobal, F: FoundFile> {
    file: NotedFile<R>,
    found: PhantomData<F>,
    ghost within: { AreAllowed F.bytes F.torn file.calls → writes_within F.bytes F.torn file.calls ≡ true },
    ghost named: { ForSome F.name (λ told. file.name.now ≡ told) },
}

impl<R: Files<File = File> + AllocGlobal, F: FoundFile> FileDisk<R, F> {
    /// A disk that has made no call and had no fault so far.
    pub fn at(files: R, name: &'static str, _found: F) -> FileDisk<R, F>
        requires named { ForSome F.name (λ told. name.now ≡ told) }
        ensures name { result.file.name.now ≡ name.now }
        ensures faults { result.file.faults ≡ 0 }
        ensures calls { result.file.calls ≡ [] }
    {
        FileDisk {
            file: NotedFile::at(files, name),
            found: PhantomData,
        }
    }
}

impl<R: Files<File = File> + AllocGlobal, F: FoundFile> Disk for FileDisk<R, F> {
    ghost faults = { λ disk. disk.file.faults };

    ghost honest = { λ disk. AreAllowed F.bytes F.torn disk.file.calls };

    ghost reads = { λ disk. file_reads F.bytes F.torn disk.file.calls };

    ghost may_leave = { λ disk image. FileImage F.bytes F.torn F.unsynced disk.file.calls image };

    ghost clock = { λ disk. length disk.file.calls };

    ghost left_since = { λ disk moment image. FileLeft F.bytes F.torn F.unsynced disk.file.calls moment image };

    ghost reads_as_image = { λ disk known. reads_as_left F.bytes F.torn F.unsynced disk.file.calls known (disk.within known) };

    ghost counts_now = { λ disk moment image known passed left.
        left_by_now F.bytes F.torn F.unsynced disk.file.calls moment image passed left };

    ghost only_now = { λ disk image known left. left_only_now F.bytes F.torn F.unsynced disk.file.calls image left };

    ghost sooner = { λ disk early late image known before left.
        left_sooner F.bytes F.torn F.unsynced disk.file.calls early late image before left };

    fn faults(&self) -> u64 {
        self.file.faults
    }

    fn len(&mut self) -> Result<u64, Failed> {
        self.file.len()
    }

    fn read(&mut self, at: u64, buf: &mut [u8]) -> Result<(), Failed> {
        self.file.read(at, buf)
    }

    fn write_at(&mut self, at: u64, bytes: &[u8]) -> Result<(), Failed> {
        self.file.write(at, bytes)
    }

    fn sync(&mut self) -> Result<(), Failed> {
        self.file.sync()
    }
}
