// The devices in memory fail where they are told to, and the real ones write, read and find real
// files.
ghost use Rattle.std.specs.Prelude.{◌≤◌};

use memory_disk::MemoryDisk;
use outside_io::*;
use std::fs;
use std::fs::{File, OpenOptions};
use std::io::pipe;
use std::os::unix::fs::symlink;
use std::process::Abort;
use std::test::Fail;
use test_rows::assert_rows;

const TEXT: &[u8] = b"three words here";

#[test]
fn devices_in_memory(rt: HostRuntime) -> Result<(), Fail> {
    let alloc = rt.alloc();
    let cases = [
        (0, 16, None),
        (3, 16, None),
        (1, 16, Some(ReadAllFault::ReadFault)),
        (2, 16, Some(ReadAllFault::ReadFault)),
        (2, 15, Some(ReadAllFault::TooLong)),
    ];
    assert_rows!(rt; (failing, limit, fault) in cases => {
        let mut source = BytesSource::new(TEXT.to_vec(alloc)?, vec![in alloc; failing]?);
        match read_all(alloc, &mut source, limit) {
            Ok(bytes) => fault.is_none() && bytes.as_slice() == TEXT,
            Err(e) => fault == Some(e),
        }
    }; "call {failing} fails, {limit} bytes");
    let mut sink = BytesSink::<MemoryDisk>::new(alloc, vec![in alloc; 2]?);
    let first = write_all(&mut sink, b"one ");
    let second = write_all(&mut sink, b"two ");
    let third = write_all(&mut sink, b"three");
    assert!(rt; (first, second, third) == (Ok(()), Err(WriteFault), Ok(())));
    assert!(rt; sink.bytes() == b"one three".as_slice());
    Ok(())
}

// A disk that a thread can take. A place past the end isn't written.
fn write_and_sync<D: Disk + Send>(disk: &mut D, at: u64, bytes: &[u8]) -> Result<(), Failed> {
    if at > disk.len()? {
        return Err(Failed);
    }
    disk.write_at(at, bytes)?;
    disk.sync()
}

#[test]
fn a_real_file_is_a_disk(rt: HostRuntime) -> Result<(), Fail> {
    let name = "outside_io_disk.test";
    let _ = fs::remove_file(&rt, name);
    let mut disk = FileDisk::at(rt.clone()?, name, AnyFile);
    assert!(rt;
        fs::metadata(&rt, name).is_err(),
        "nothing before the first call"
    );
    let empty = disk.len();
    let first = write_and_sync(&mut disk, 0, b"a first line");
    let second = write_and_sync(&mut disk, 2, b"FIRST");
    assert!(rt; (empty, first, second) == (Ok(0), Ok(()), Ok(())));
    drop(disk);
    let mut again = FileDisk::at(rt.clone()?, name, AnyFile);
    assert_eq!(rt; read_back(&rt, &mut again, 1)?, *b" FIRST ");
    // while one holds the file another is refused, and writes nothing
    let mut other = FileDisk::at(rt.clone()?, name, AnyFile);
    let refused = write_and_sync(&mut other, 0, b"over it");
    assert!(rt; (refused, other.faults(), again.len()) == (Err(Failed), 1, Ok(12)));
    drop(again);
    assert!(rt; (other.len(), other.faults()) == (Ok(12), 1));
    fs::remove_file(&rt, name)?;
    Ok(())
}

// Seven bytes of a file of twelve.
fn read_back<D: Disk>(rt: &impl Abort, disk: &mut D, at: u64) -> Result<[u8; 7], Fail>
    requires { at ≤ 5 }
{
    let length = disk.len().map_err(|_| "no length")?;
    assert!(rt; length == 12);
    let mut part = [0; 7];
    disk.read(at, &mut part).map_err(|_| "not read")?;
    Ok(part)
}

// A file that is cut by someone else gives fewer bytes than it told of: such a read fails, and a write past its end, which
// leaves no hole.
#[test]
fn a_file_that_was_cut_fails(rt: HostRuntime) -> Result<(), Fail> {
    let name = "outside_io_cut.test";
    let _ = fs::remove_file(&rt, name);
    let mut disk = FileDisk::at(rt.clone()?, name, AnyFile);
    assert!(rt; write_and_sync(&mut disk, 0, b"twelve bytes") == Ok(()));
    let length = disk.len().map_err(|_| "no length")?;
    assert!(rt; length == 12);
    let file = OpenOptions::new().write(true).open(&rt, name)?;
    file.set_len(8)?;
    let cut = disk.read(5, &mut [0; 7]);
    assert!(rt; (cut, disk.faults()) == (Err(Failed), 1));
    let past = disk.write_at(12, b"a gate");
    assert!(rt; (past, disk.faults()) == (Err(Failed), 2));
    assert!(rt; fs::metadata(&rt, name)?.len() == 8);
    fs::remove_file(&rt, name)?;
    Ok(())
}

// A file that was removed, replaced or cut isn't written on as if it were there: the next sync or write past the end is
// a fault, and each one after it, were the file put back. One whose name is a symbolic link is that to which the link leads.
#[test]
fn a_file_that_was_taken_away_fails(rt: HostRuntime) -> Result<(), Fail> {
    let name = "outside_io_taken.test";
    let other = "outside_io_other.test";
    let _ = fs::remove_file(&rt, name);
    let _ = fs::remove_file(&rt, other);
    let mut disk = FileDisk::at(rt.clone()?, name, AnyFile);
    assert!(rt; write_and_sync(&mut disk, 0, b"twelve bytes") == Ok(()));
    OpenOptions::new().write(true).open(&rt, name)?.set_len(8)?;
    let cut = (disk.sync(), disk.faults());
    drop(disk);
    let mut disk = FileDisk::at(rt.clone()?, name, AnyFile);
    assert!(rt; write_and_sync(&mut disk, 8, b"more") == Ok(()));
    fs::rename(&rt, name, other)?;
    let renamed = (disk.sync(), disk.faults());
    let _ = File::create(&rt, name)?;
    let replaced = (disk.sync(), disk.faults());
    fs::remove_file(&rt, name)?;
    fs::rename(&rt, other, name)?;
    let put_back = (disk.sync(), disk.faults());
    assert!(rt; (cut, renamed) == ((Err(Failed), 1), (Err(Failed), 1)));
    assert!(rt; (replaced, put_back) == ((Err(Failed), 2), (Err(Failed), 3)));
    drop(disk);
    fs::rename(&rt, name, other)?;
    symlink(&rt, other, name)?;
    let mut linked = FileDisk::at(rt.clone()?, name, AnyFile);
    assert!(rt; (write_and_sync(&mut linked, 12, b"end"), linked.len()) == (Ok(()), Ok(15)));
    fs::remove_file(&rt, name)?;
    assert!(rt; (linked.sync(), linked.faults()) == (Err(Failed), 1));
    fs::remove_file(&rt, other)?;
    Ok(())
}

// A write that the device refuses, and a sync that it can't make, are faults.
#[test]
fn a_full_device_fails(rt: HostRuntime) -> Result<(), Fail> {
    let mut full = FileDisk::at(rt.clone()?, "/dev/full", AnyFile);
    let written = full.write_at(0, b"a line");
    let synced = full.sync();
    assert!(rt; (written, synced, full.faults()) == (Err(Failed), Err(Failed), 2));
    Ok(())
}

// What goes into a pipe comes out of it; with nobody at its other end a write fails.
#[test]
fn a_pipe_is_a_stream(rt: HostRuntime) -> Result<(), Fail> {
    let (reader, writer) = pipe(&rt)?;
    let mut sink = StdSink::<_, MemoryDisk>::new(writer);
    let mut source = StdSource::new(reader);
    let written = write_all(&mut sink, b"through");
    drop(sink);
    let Ok(read) = read_all(rt.alloc(), &mut source, 7) else {
        return Err(Fail::new("not read"));
    };
    assert!(rt; (written, read.as_slice()) == (Ok(()), b"through".as_slice()));
    assert!(rt; source.faults() == 0);
    let (reader, writer) = pipe(&rt)?;
    drop(reader);
    let mut sink = StdSink::<_, MemoryDisk>::new(writer);
    assert!(rt; (write_all(&mut sink, b"lost"), sink.faults()) == (Err(WriteFault), 1));
    Ok(())
}

#[test]
fn real_streams(rt: HostRuntime) -> Result<(), Fail> {
    let alloc = rt.alloc();
    let name = "outside_io_stream.test";
    let mut sink = StdSink::<_, MemoryDisk>::new(File::create(&rt, name)?);
    let written = write_all(&mut sink, b"two\nlines");
    let mut closed = StdSink::<_, MemoryDisk>::new(File::open(&rt, name)?);
    let refused = write_all(&mut closed, b"x");
    assert!(rt; (written, refused, closed.faults()) == (Ok(()), Err(WriteFault), 1));
    let Ok(bytes) = read_all(alloc, &mut StdSource::new(File::open(&rt, name)?), 9) else {
        return Err(Fail::new("not read"));
    };
    assert!(rt; bytes.as_slice() == b"two\nlines".as_slice());
    fs::remove_file(&rt, name)?;
    Ok(())
}
