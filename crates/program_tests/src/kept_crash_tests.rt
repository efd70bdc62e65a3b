// Drawn scripts with checkpoints between their lines, and crashes at each moment of either disk: `state` writes what
// it writes without a checkpoint.
use crate::devices::disk_of;
use crate::kept::{Kept, keep};
use memory_disk::MemoryDisk;
use outside_io::BytesSink;
use std::alloc::{AllocError, Global};
use std::sync::Wait;
use std::test::Fail;
use std::thread::Threads;
use test_rows::assert_rows;

// Lines, most of which are refused at the place where they are drawn.
const LINES: [&str; 20] = [
    "1,issue,1,2020-01-01,endowment,0,3,1000.00,400.00\n",
    "1,issue,2,2020-01-01,limited,0,2,500.00,200.00\n",
    "1,issue,3,2019-06-01,whole,40,0,0.05,0.01\n",
    "1,issue,4,2020-02-29,term,30,20,100000.00,85.50\n",
    "1,premium,1,2020-01-01,400.00\n",
    "1,premium,2,2020-01-01,200.00\n",
    "1,premium,3,2019-06-01,0.01\n",
    "1,premium,4,2020-02-29,85.50\n",
    "1,alter,2,2020-01-02,250.00,100.00\n",
    "1,lapse,3,2020-08-01\n",
    "1,lapse,4,2020-04-01\n",
    "1,reinstate,3,2020-09-01,0.01\n",
    "1,claim,1,2020-06-01\n",
    "1,settle,1,2020-07-01,400.00\n",
    "1,settle,1,2020-07-03,600.00\n",
    "1,upgrade\n",
    "1,paidup,2,2020-12-01,200.00\n",
    "1,paidup,1,2020-12-01,300.00\n",
    "1,mature,2,2022-01-01\n",
    "1,claim,4,2020-03-05\n",
];

// The next draw, and a number below so many by it.
fn draw(state: &mut u64, below: u64) -> usize {
    *state = (*state % 2_147_483_648 * 1_103_515_245 + 12_345) % 2_147_483_648;
    (*state / 256 % below.max(1)) as usize
}

// Whether `state` writes of these two files what it writes of the first alone.
fn is_stated_alike<R: Threads + Wait + Sync>(
    rt: &R,
    alloc: Global,
    journal: &[u8],
    kept: &[u8],
) -> Result<bool, AllocError> {
    let (disk, second) = (disk_of(alloc, journal, &[])?, disk_of(alloc, kept, &[])?);
    let with = keep(rt, alloc, &["state"], "", disk, second)?;
    let (disk, second) = (disk_of(alloc, journal, &[])?, disk_of(alloc, &[], &[])?);
    let without = keep(rt, alloc, &["state"], "", disk, second)?;
    Ok(
        with.status == 0
            && without.status == 0
            && with.output.bytes() == without.output.bytes()
            && with.second.bytes() == kept,
    )
}

// Sixty lines are drawn, and each is run by itself. After about every fifth a checkpoint is made, so that in most of
// the comparisons it is out of date, or older than the upgrade.
#[test]
fn drawn_scripts_are_stated_alike(rt: HostRuntime) -> Result<(), AllocError> {
    let alloc = rt.alloc();
    for seed in 1..=6_u64 {
        let mut state = seed;
        let mut ended = Kept {
            status: 0,
            output: BytesSink::new(alloc, Vec::new(alloc)),
            disk: disk_of(alloc, &[], &[])?,
            second: disk_of(alloc, &[], &[])?,
        };
        let mut made = 0;
        for _ in 0..60 {
            let line = LINES.get(draw(&mut state, 20)).copied().unwrap_or("");
            ended = keep(&rt, alloc, &["run"], line, ended.disk, ended.second)?;
            assert!(rt; ended.status == 0);
            if draw(&mut state, 5) == 0 {
                ended = keep(&rt, alloc, &["checkpoint"], "", ended.disk, ended.second)?;
                assert!(rt; ended.status == 0);
                made = 1;
            }
            assert!(rt;
                is_stated_alike(&rt, alloc, ended.disk.bytes(), ended.second.bytes())?,
                "seed {seed}"
            );
        }
        assert!(rt; made == 1 && ended.disk.bytes().len() > 18 + 65 * 6);
    }
    Ok(())
}

// The images that a crash might have left at some moment, each once: none, one or two of the writes that weren't safe
// were done, or a part of each.
fn images_of(alloc: Global, disk: &MemoryDisk) -> Result<Vec<Vec<u8>>, Fail> {
    let mut images = Vec::new(alloc);
    for moment in 0..=disk.calls() {
        for keep in [0, 1, 2] {
            let image = disk.image(alloc, moment, keep).map_err(|_| "no memory")?;
            add_new(&mut images, image)?;
        }
        for reached in [1, 50] {
            let image = disk
                .torn_image(alloc, moment, reached)
                .map_err(|_| "no memory")?;
            add_new(&mut images, image)?;
        }
    }
    Ok(images)
}

fn add_new(images: &mut Vec<Vec<u8>>, image: Vec<u8>) -> Result<(), AllocError> {
    for earlier in images.iter() {
        if earlier.as_slice() == image.as_slice() {
            return Ok(());
        }
    }
    images.push(image)?;
    Ok(())
}

const FIRST_TWO: &str =
    "1,issue,1,2020-01-01,endowment,0,3,1000.00,400.00\n1,premium,1,2020-01-01,400.00\n";

const NEXT_TWO: &str = "1,issue,2,2020-01-01,limited,0,2,500.00,200.00\n1,claim,1,2020-06-01\n";

// None, then two commands, then two more are kept. A crash of either disk at any moment of that, of the other disk at
// any other moment: the images need not even belong together.
#[test]
fn a_crash_of_either_disk_is_stated_alike(rt: HostRuntime) -> Result<(), Fail> {
    let alloc = rt.alloc();
    let (disk, second) = (disk_of(alloc, &[], &[])?, disk_of(alloc, &[], &[])?);
    let first = keep(&rt, alloc, &["checkpoint"], "", disk, second)?;
    let ran = keep(&rt, alloc, &["run"], FIRST_TWO, first.disk, first.second)?;
    let made = keep(&rt, alloc, &["checkpoint"], "", ran.disk, ran.second)?;
    let again = keep(&rt, alloc, &["run"], NEXT_TWO, made.disk, made.second)?;
    let last = keep(&rt, alloc, &["checkpoint"], "", again.disk, again.second)?;
    assert!(rt; last.wrote(0, "checkpoint,4\n"));
    let journals = images_of(alloc, &last.disk)?;
    let kept = images_of(alloc, &last.second)?;
    assert!(rt; journals.len() > 20 && kept.len() > 10);
    assert_rows!(rt; (at, journal) in journals.iter().enumerate(), (row, file) in kept.iter().enumerate() =>
        is_stated_alike(&rt, alloc, journal.as_slice(), file.as_slice())?; "images {at} and {row}");
    Ok(())
}
