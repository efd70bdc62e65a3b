// The disk keeps its calls, fails where it is asked to, and gives the images of each moment.
use memory_disk::*;
use outside_io::{Disk, Failed};
use std::alloc::Global;
use std::test::Fail;
use test_rows::assert_rows;

// A disk that can be given to a thread.
fn ask_length<D: Disk + Send>(disk: &mut D) -> Result<u64, Failed> {
    disk.len()
}

/// A moment, a number, and two images: with the first so many unsynced writes done whole, and with the first so many
/// bytes of each.
/// so many bytes.
type Case = (u32, u32, &'static [u8], &'static [u8]);

const CASES: &[Case] = &[
    (0, 9, b"abcdef", b"abcdef"),
    (1, 0, b"abcdef", b"abcdef"),
    (1, 1, b"abcdEFGH", b"abcdEf"),
    (1, 3, b"abcdEFGH", b"abcdEFG"),
    (2, 0, b"abcdEFGH", b"abcdEFGH"),
    (3, 0, b"abcdEFGH", b"abcdEFGH"),
    (3, 1, b"ABCdEFGH", b"AbcdEFGH"),
    (4, 1, b"ABCdEFGH", b"AbcdEFGHI"),
    (4, 2, b"ABCdEFGHIJ", b"ABcdEFGHIJ"),
    (5, 0, b"abcdEFGH", b"abcdEFGH"),
    (6, 2, b"ABCdEFGHIJ", b"ABcdEFxyIJ"),
    (6, 3, b"ABCdEFxyIJ", b"ABCdEFxyIJ"),
];

fn holds(alloc: Global, disk: &MemoryDisk, case: &Case) -> Result<bool, Fail> {
    let (moment, keep, whole, torn) = *case;
    if moment > disk.calls() {
        return Ok(false);
    }
    let image = disk.image(alloc, moment, keep).map_err(|_| "no memory")?;
    let torn_image = disk
        .torn_image(alloc, moment, keep as usize)
        .map_err(|_| "no memory")?;
    Ok(image.as_slice() == whole && torn_image.as_slice() == torn)
}

#[test]
fn images_of_each_moment(rt: HostRuntime) -> Result<(), Fail> {
    let alloc = rt.alloc();
    let mut disk = MemoryDisk::new(alloc, b"abcdef".to_vec(alloc)?, vec![in alloc; 5, 6]?);
    let first = disk.write_at(4, b"EFGH");
    let second = disk.sync();
    let third = disk.write_at(0, b"ABC");
    assert!(rt; disk.bytes() == b"ABCdEFGH".as_slice());
    let fourth = disk.write_at(8, b"IJ");
    let fifth = disk.sync();
    let sixth = disk.write_at(6, b"xy");
    assert!(rt; (first, second, third) == (Ok(()), Ok(()), Ok(())));
    assert!(rt; (fourth, fifth, sixth) == (Ok(()), Err(Failed), Err(Failed)));
    assert!(rt;
        disk.bytes() == b"ABCdEFxHIJ".as_slice(),
        "half of what failed is read"
    );
    assert!(rt; (disk.calls(), disk.made().len()) == (6, 6));
    assert_rows!(rt; case in CASES => holds(alloc, &disk, case)?; "{} after {} calls", case.1, case.0);
    assert!(rt; ask_length(&mut disk) == Ok(10));
    Ok(())
}
