// The books by the journal and a checkpoint: what `checkpoint` and `state` write, what they read, and what either disk does
// to them. Texts and bytes are worked out by hand from the formats.
use crate::devices::disk_of;
use crate::kept::{Kept, journal_of, keep, keep_beside};
use memory_disk::{DiskCall, MemoryDisk};
use std::alloc::{AllocError, Global};
use std::sync::Wait;
use std::thread::Threads;
use test_rows::assert_rows;

const CLAIMED: &str = "1,issue,7001,2020-01-01,endowment,0,3,1000.00,400.00\n\
    1,premium,7001,2020-01-01,400.00\n1,claim,7001,2020-06-01\n1,settle,7001,2020-07-01,400.00\n";

// The same, and the claim settled.
const SETTLED: &str = "1,issue,7001,2020-01-01,endowment,0,3,1000.00,400.00\n\
    1,premium,7001,2020-01-01,400.00\n1,claim,7001,2020-06-01\n1,settle,7001,2020-07-01,400.00\n\
    1,settle,7001,2020-07-03,600.00\n";

const SETTLE: &str = "1,settle,7001,2020-07-03,600.00\n";

const SETTLED_BOOKS: &str = "policy,7001,settled,endowment,0,3,1000.00,400.00,2020-01-01,1,0.00\n\
    balance,cash,-600.00\nbalance,premiums,-400.00\nbalance,incurred,1000.00\nbalance,payable,0.00\ncount,5\n";

// The checkpoint of the claimed policy: the gate, LIFECHKP, 1, 48 and four zeros; position 4, no upgrade, one policy; 0.00,
// -400.00, 1000.00 and -600.00; three zeros; and an endowment of 1000.00 for three years at age 0 with a premium of 400.00,
// number 7001, issued on 2020-01-01, of which 600.00 of a claim are outstanding on 2020-07-01.
const CHECKPOINT: &[u8] =
    b"\x01\x4c\x49\x46\x45\x43\x48\x4b\x50\x00\x01\x00\x30\x00\x00\x00\x00\x00\x00\x00\x04\x00\x00\x00\x00\x00\x00\x00\x01\x00\x00\x00\x00\x00\x00\x00\x00\xff\xff\xff\xff\xff\xff\x63\xc0\x00\x00\x00\x00\x00\x01\x86\xa0\xff\xff\xff\xff\xff\xff\x15\xa0\x00\x00\x00\x00\x00\x1b\x59\x03\x00\x03\x01\x03\x00\x00\x00\x00\x00\x47\x56\x00\x00\x48\x0c\x00\x00\x00\x00\x00\x01\x86\xa0\x00\x00\x00\x00\x00\x00\x9c\x40\x00\x00\x00\x00\x00\x00\xea\x60\x00\x00\x00\x00";

// Whether the last of the calls reads the bodies of the last so many of five records, and the calls before it open
// them.
fn read_last(disk: &MemoryDisk, bodies: u64) -> bool {
    match disk.made().last() {
        Some(DiskCall::Read { at, many, failed }) => {
            disk.calls() == 5
                && *at == 17 + 65 * (5 - bodies.min(5))
                && *many as u64 == 65 * bodies.min(5)
                && !*failed
        }
        _ => false,
    }
}

#[test]
fn a_checkpoint_is_made_and_used(rt: HostRuntime) -> Result<(), AllocError> {
    let alloc = rt.alloc();
    let journal = journal_of(&rt, alloc, CLAIMED)?;
    let before = Vec::from_slice(alloc, journal.bytes())?;
    let empty = disk_of(alloc, &[], &[])?;
    let made = keep(&rt, alloc, &["checkpoint"], "7", journal, empty)?;
    assert!(rt; made.wrote(0, "checkpoint,4\n"));
    assert!(rt; made.second.bytes() == CHECKPOINT);
    assert!(rt; made.disk.bytes() == before.as_slice());

    let Kept { disk, second, .. } = made;
    let ran = keep(&rt, alloc, &["run"], SETTLE, disk, second)?;
    assert!(rt; ran.wrote(0, "1,settle,7001,accepted,5\n"));
    assert!(rt; ran.second.bytes() == CHECKPOINT);

    // One of the five bodies is read; with the gate closed all of them are; and the second disk is only synced and
    // read.
    let mut closed = Vec::from_slice(alloc, CHECKPOINT)?;
    if let Some(gate) = closed.as_mut_slice().first_mut() {
        *gate = 0;
    }
    assert_rows!(rt; (file, bodies) in [(CHECKPOINT, 1), (closed.as_slice(), 5), (&[], 5)] => {
        let (disk, second) = (disk_of(alloc, ran.disk.bytes(), &[])?, disk_of(alloc, file, &[])?);
        let stated = keep(&rt, alloc, &["state"], "7", disk, second)?;
        stated.wrote(0, SETTLED_BOOKS)
            && read_last(&stated.disk, bodies)
            && is_only_read(&stated.second)
            && stated.second.bytes() == file
    }; "{bodies} bodies, {} bytes", file.len());
    Ok(())
}

// Whether a disk had only syncs, reads and questions for its length.
fn is_only_read(disk: &MemoryDisk) -> bool {
    let writes = |call: &DiskCall| matches!(call, DiskCall::Write { .. });
    disk.calls() > 0 && !disk.made().iter().any(writes)
}

// Every mode but these two gives the second disk back as it was, without a call, even a disk that would fail at its
// first call.
// The arguments of another mode, and the status with which they end.
struct Other {
    words: &'static [&'static str],
    status: u8,
}

const OTHERS: &[Other] = &[
    Other {
        words: &["run"],
        status: 0,
    },
    Other {
        words: &["run", "--basis", "basis.csv"],
        status: 0,
    },
    Other {
        words: &["state", "7001"],
        status: 0,
    },
    Other {
        words: &["value", "2021-01-01"],
        status: 0,
    },
    Other {
        words: &["value", "2021-01-01", "--at", "9"],
        status: 10,
    },
    Other {
        words: &["value", "2021-01-01", "--basis", "none.csv"],
        status: 4,
    },
    Other {
        words: &["project", "2021-01-01", "3"],
        status: 0,
    },
    Other {
        words: &["generate", "1", "1", "1"],
        status: 0,
    },
    Other {
        words: &["load", "1", "1", "1", "1"],
        status: 0,
    },
    Other {
        words: &["checkpoint", "now"],
        status: 2,
    },
    Other {
        words: &["Checkpoint"],
        status: 2,
    },
    Other {
        words: &["state", "checkpoint"],
        status: 2,
    },
];

// Whether these arguments leave the second disk as it was, without a call, although it would fail at this one.
fn is_untouched<R: Threads + Wait + Sync>(
    rt: &R,
    alloc: Global,
    other: &Other,
    file: &[u8],
    failing: u64,
) -> Result<bool, AllocError> {
    let journal = journal_of(rt, alloc, CLAIMED)?;
    let second = disk_of(alloc, file, &[failing])?;
    let ended = keep(rt, alloc, other.words, SETTLE, journal, second)?;
    Ok(ended.status == other.status && ended.second.bytes() == file && ended.second.calls() == 0)
}

#[test]
fn no_other_mode_touches_the_second_disk(rt: HostRuntime) -> Result<(), AllocError> {
    let seconds: [(&[u8], u64); 3] = [(CHECKPOINT, 1), (&[], 1), (CHECKPOINT, 0)];
    assert_rows!(rt; (row, other) in OTHERS.iter().enumerate(), (file, failing) in seconds =>
        is_untouched(&rt, rt.alloc(), other, file, failing)?; "row {row}, {} bytes", file.len());
    Ok(())
}

// The arguments of the two modes that read both disks.
const BOTH: [&str; 2] = ["state", "checkpoint"];

// If the output fails, the checkpoint is kept, and a part of the line may have been written.
#[test]
fn an_output_that_fails(rt: HostRuntime) -> Result<(), AllocError> {
    let alloc = rt.alloc();
    assert_rows!(rt; word in BOTH => {
        let journal = journal_of(&rt, alloc, CLAIMED)?;
        let second = disk_of(alloc, &[], &[])?;
        let ended = keep_beside(&rt, alloc, &[word], "", &[1], journal, second)?;
        let is_made = ended.second.bytes() == CHECKPOINT;
        ended.wrote(7, "") && is_made == (word == "checkpoint")
    }; "{word}");
    Ok(())
}

// How many calls a mode makes on each disk if none fails.
fn calls_of<R: Threads + Wait + Sync>(
    rt: &R,
    alloc: Global,
    word: &str,
    file: &[u8],
    kept: &[u8],
) -> Result<(u32, u32), AllocError> {
    let (disk, second) = (disk_of(alloc, file, &[])?, disk_of(alloc, kept, &[])?);
    let ended = keep(rt, alloc, &[word], "", disk, second)?;
    Ok((ended.disk.calls(), ended.second.calls()))
}

// A call of either disk fails alone: the status is 8, the journal is as it was, and the second disk has no other
// checkpoint, so that the next `state` writes the same books.
#[test]
fn each_failing_call_of_either_disk_is_answered(rt: HostRuntime) -> Result<(), AllocError> {
    let alloc = rt.alloc();
    let journal = journal_of(&rt, alloc, SETTLED)?;
    for word in BOTH {
        for kept in [CHECKPOINT, &[]] {
            let (firsts, seconds) = calls_of(&rt, alloc, word, journal.bytes(), kept)?;
            assert_rows!(rt; call in 1..=u64::from(firsts.max(seconds)) => {
                let first = call <= u64::from(firsts);
                let second = call <= u64::from(seconds);
                is_answered(&rt, alloc, word, journal.bytes(), kept, (call, 0), first)?
                    && is_answered(&rt, alloc, word, journal.bytes(), kept, (0, call), second)?
            }; "{word}, call {call}");
        }
    }
    Ok(())
}

// Whether, with these failing calls of the two disks, it fails or not, and leaves what it may.
fn is_answered<R: Threads + Wait + Sync>(
    rt: &R,
    alloc: Global,
    word: &str,
    file: &[u8],
    kept: &[u8],
    failing: (u64, u64),
    fails: bool,
) -> Result<bool, AllocError> {
    let (first, second) = failing;
    let ended = keep(
        rt,
        alloc,
        &[word],
        "",
        disk_of(alloc, file, &[first])?,
        disk_of(alloc, kept, &[second])?,
    )?;
    if fails != (ended.status == 8) || fails && !ended.wrote(8, "diskfault\n") {
        return Ok(false);
    }
    let disk = disk_of(alloc, ended.disk.bytes(), &[])?;
    let second = disk_of(alloc, ended.second.bytes(), &[])?;
    let stated = keep(rt, alloc, &["state"], "", disk, second)?;
    Ok(ended.disk.bytes() == file && stated.wrote(0, SETTLED_BOOKS))
}
