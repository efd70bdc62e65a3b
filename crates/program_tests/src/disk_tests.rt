// Runs and their disk: its calls and its faults. Texts and counts are written by hand from the formats.
use crate::devices::{disk_of, run_on};
use memory_disk::DiskCall;
use std::alloc::{AllocError, Global};
use std::sync::Wait;
use std::thread::Threads;
use test_rows::assert_rows;

const SIX: &str = "1,issue,1,2020-01-01,endowment,0,3,1000.00,400.00\n\
    1,issue,2,2020-01-01,endowment,0,3,1000.00,400.00\n\
    1,issue,3,2020-01-01,endowment,0,3,1000.00,400.00\n\
    1,issue,4,2020-01-01,endowment,0,3,1000.00,400.00\n\
    1,issue,5,2020-01-01,endowment,0,3,1000.00,400.00\n\
    1,issue,6,2020-01-01,endowment,0,3,1000.00,400.00\n";

const FIFTH_FAULTED: &str =
    "1,issue,1,accepted,1\n1,issue,2,accepted,2\n1,issue,3,accepted,3\n1,issue,4,accepted,4\n\
    1,issue,5,fault\n1,issue,6,accepted,5\n";

const FIFTH_ACCEPTED: &str =
    "1,issue,1,refused,taken\n1,issue,2,refused,taken\n1,issue,3,refused,taken\n1,issue,4,refused,taken\n\
    1,issue,5,accepted,6\n1,issue,6,refused,taken\n";

// Six issues, the second sync of the fifth failing: the sixth repairs the journal first.
#[test]
fn a_run_goes_on_after_a_fault(rt: HostRuntime) -> Result<(), AllocError> {
    let alloc = rt.alloc();
    let ran = run_on(&rt, alloc, SIX, disk_of(alloc, &[], &[29])?)?;
    assert!(rt; ran.wrote(8, FIFTH_FAULTED));
    let again = run_on(&rt, alloc, SIX, disk_of(alloc, ran.disk.bytes(), &[])?)?;
    assert!(rt; again.wrote(0, FIFTH_ACCEPTED));
    Ok(())
}

// A call in a short form: its kind, its place, how many bytes, and whether it failed.
type Wanted = (u8, u64, usize, bool);

fn is_call(call: &DiskCall, wanted: Wanted) -> bool {
    let (kind, place, size, fails) = wanted;
    match call {
        DiskCall::Len { failed } => kind == b'l' && *failed == fails,
        DiskCall::Sync { failed } => kind == b's' && *failed == fails,
        DiskCall::Read { at, many, failed } => {
            kind == b'r' && *at == place && *many == size && *failed == fails
        }
        DiskCall::Write { at, bytes, failed } => {
            kind == b'w' && *at == place && bytes.len() == size && *failed == fails
        }
    }
}

fn are_calls(calls: &[DiskCall], wanted: &[Wanted]) -> bool {
    if calls.len() != wanted.len() {
        return false;
    }
    for i in 0..calls.len() {
        if !is_call(&calls[i], wanted[i]) {
            return false;
        }
    }
    true
}

const SYNC: Wanted = (b's', 0, 0, false);

const LENGTH: Wanted = (b'l', 0, 0, false);

const FIRST: &str = "1,issue,1,2020-01-01,endowment,0,3,1000.00,400.00\n";

// What is run first, then the script, the calls of its disk that are to fail, and all that it makes.
struct Calls {
    before: &'static str,
    file: &'static [u8],
    failing: &'static [u64],
    script: &'static str,
    wanted: &'static [Wanted],
}

const CALLS: &[Calls] = &[
    // The creation whole, and a posting; the second line is refused and calls nothing.
    Calls {
        before: "",
        file: &[],
        failing: &[],
        script: "1,issue,1,2020-01-01,endowment,0,3,1000.00,400.00\n1,issue,1,2020-01-01,endowment,0,3,1000.00,400.00\n",
        wanted: &[
            SYNC,
            LENGTH,
            (b'r', 0, 0, false),
            (b'w', 0, 1, false),
            SYNC,
            (b'w', 1, 17, false),
            SYNC,
            (b'w', 0, 1, false),
            SYNC,
            (b'w', 18, 65, false),
            SYNC,
            (b'w', 17, 1, false),
            SYNC,
        ],
    },
    // A creation that had begun: its first step isn't made again.
    Calls {
        before: "",
        file: &[0; 10],
        failing: &[],
        script: "",
        wanted: &[
            SYNC,
            LENGTH,
            (b'r', 0, 10, false),
            (b'w', 1, 17, false),
            SYNC,
            (b'w', 0, 1, false),
            SYNC,
        ],
    },
    // A journal of one record, and a posting after it.
    Calls {
        before: FIRST,
        file: &[],
        failing: &[],
        script: "1,issue,1,2020-01-01,endowment,0,3,1000.00,400.00\n1,issue,2,2020-01-01,endowment,0,3,1000.00,400.00\n",
        wanted: &[
            SYNC,
            LENGTH,
            (b'r', 0, 18, false),
            (b'r', 17, 66, false),
            (b'r', 17, 65, false),
            (b'w', 83, 65, false),
            SYNC,
            (b'w', 82, 1, false),
            SYNC,
        ],
    },
    // The gate's write fails: before the next record the gate is closed.
    Calls {
        before: FIRST,
        file: &[],
        failing: &[8],
        script: "1,issue,2,2020-01-01,endowment,0,3,1000.00,400.00\n1,issue,3,2020-01-01,endowment,0,3,1000.00,400.00\n",
        wanted: &[
            SYNC,
            LENGTH,
            (b'r', 0, 18, false),
            (b'r', 17, 66, false),
            (b'r', 17, 65, false),
            (b'w', 83, 65, false),
            SYNC,
            (b'w', 82, 1, true),
            (b'w', 82, 1, false),
            SYNC,
            (b'w', 83, 65, false),
            SYNC,
            (b'w', 82, 1, false),
            SYNC,
        ],
    },
];

// Whether the script makes exactly the expected calls.
fn calls_are<R: Threads + Wait + Sync>(
    rt: &R,
    alloc: Global,
    case: &Calls,
) -> Result<bool, AllocError> {
    if case.before.is_empty() {
        let ran = run_on(
            rt,
            alloc,
            case.script,
            disk_of(alloc, case.file, case.failing)?,
        )?;
        return Ok(are_calls(ran.disk.made(), case.wanted));
    }
    let first = run_on(rt, alloc, case.before, disk_of(alloc, case.file, &[])?)?;
    let disk = disk_of(alloc, first.disk.bytes(), case.failing)?;
    let ran = run_on(rt, alloc, case.script, disk)?;
    Ok(are_calls(ran.disk.made(), case.wanted))
}

#[test]
fn no_call_is_made_beyond_those_of_the_journal(rt: HostRuntime) -> Result<(), AllocError> {
    assert_rows!(rt; (row, case) in CALLS.iter().enumerate() =>
        calls_are(&rt, rt.alloc(), case)?; "row {row}");
    Ok(())
}
