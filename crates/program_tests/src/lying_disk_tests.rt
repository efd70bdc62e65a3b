// A disk that lies: what it gave is no journal, or a journal with other commands; the program says the one, or prints
// the others.
use crate::devices::{disk_of, run_on, shelf_of, words_of};
use crate::lying_disk::LyingDisk;
use life_app::{Ended, life};
use outside_io::{BytesSink, BytesSource, OpenGate};
use std::alloc::{AllocError, Global};
use std::sync::Wait;
use std::thread::Threads;
use test_rows::assert_rows;

const ISSUE: &str = "1,issue,7001,2020-01-01,endowment,0,3,1000.00,400.00\n";

const NONE: &str =
    "balance,cash,0.00\nbalance,premiums,0.00\nbalance,incurred,0.00\nbalance,payable,0.00\ncount,0\n";

const ONE: &str = "policy,7001,inforce,endowment,0,3,1000.00,400.00,2020-01-01,0,0.00\n\
    balance,cash,0.00\nbalance,premiums,0.00\nbalance,incurred,0.00\nbalance,payable,0.00\ncount,1\n";

// Which read lies at which byte, and what `state` then ends with and writes.
struct Lie {
    read: u64,
    place: usize,
    status: u8,
    written: &'static str,
}

// The creation's gate reads as closed, in a file that is longer than an unfinished creation; the first record's gate
// reads as closed; the gate after it reads as open although there is no record; the kind of its body reads as none;
// and no lie. The gates are read at once, and then the bodies.
const LIES: &[Lie] = &[
    Lie {
        read: 1,
        place: 0,
        status: 5,
        written: "badjournal,notajournal\n",
    },
    Lie {
        read: 2,
        place: 0,
        status: 0,
        written: NONE,
    },
    Lie {
        read: 2,
        place: 65,
        status: 5,
        written: "badjournal,badrecord,1\n",
    },
    Lie {
        read: 3,
        place: 1,
        status: 5,
        written: "badjournal,badrecord,0\n",
    },
    Lie {
        read: 4,
        place: 0,
        status: 0,
        written: ONE,
    },
];

// Whether the state of a journal of one issue is written so.
fn is_told<R: Threads + Wait + Sync>(rt: &R, alloc: Global, lie: &Lie) -> Result<bool, AllocError> {
    let issued = run_on(rt, alloc, ISSUE, disk_of(alloc, &[], &[])?)?;
    let disk = LyingDisk {
        disk: issued.disk,
        lied: false,
        reads: 0,
        lie: lie.read,
        place: lie.place,
    };
    let words = words_of(alloc, &["state"])?;
    let mut input = BytesSource::new(Vec::new(alloc), Vec::new(alloc));
    let mut output = BytesSink::new(alloc, Vec::new(alloc));
    let mut shelf = shelf_of(alloc, &[], &[])?;
    let Ended {
        status,
        lack: _lack,
        disk,
    } = life(
        rt,
        alloc,
        &words,
        &mut input,
        &mut output,
        &mut shelf,
        disk,
        Vec::new(alloc),
        &OpenGate,
    );
    drop(disk);
    Ok(status == lie.status && output.bytes() == lie.written.as_bytes())
}

#[test]
fn what_a_lying_disk_gave_is_answered(rt: HostRuntime) -> Result<(), AllocError> {
    assert_rows!(rt; (row, lie) in LIES.iter().enumerate() => is_told(&rt, rt.alloc(), lie)?; "row {row}");
    Ok(())
}
