// Runs of six issues in which calls of the disk fail, and crashes at each moment of one. What is left is compared
// with what was printed.
use crate::devices::{Finished, disk_of, run_on};
use std::alloc::{AllocError, Global};
use std::sync::Wait;
use std::test::Fail;
use std::thread::Threads;
use test_rows::assert_rows;

const SIX: &str = "1,issue,1,2020-01-01,endowment,0,3,1000.00,400.00\n\
    1,issue,2,2020-01-01,endowment,0,3,1000.00,400.00\n\
    1,issue,3,2020-01-01,endowment,0,3,1000.00,400.00\n\
    1,issue,4,2020-01-01,endowment,0,3,1000.00,400.00\n\
    1,issue,5,2020-01-01,endowment,0,3,1000.00,400.00\n\
    1,issue,6,2020-01-01,endowment,0,3,1000.00,400.00\n";

// A creation makes 9 calls, and each of the six postings 4.
const CREATION_CALLS: u32 = 9;

const POSTING_CALLS: u32 = 4;

const ALL_CALLS: u32 = 33;

// Which of the six lines are answered `fault`, as the text is if the others are accepted in order.
fn faulted(text: &[u8]) -> [bool; 6] {
    let mut faults = [false; 6];
    for (n, line) in text.split(|byte| *byte == b'\n').enumerate() {
        if n < 6 {
            faults[n] = line.ends_with(b",fault");
        }
    }
    faults
}

// The text of a run in which these lines are answered `fault`.
fn answered(alloc: Global, faults: &[bool; 6]) -> Result<String, AllocError> {
    let mut text = String::new(alloc);
    let mut count = 0u32;
    for n in 0..6usize {
        let id = n + 1;
        let line = if faults[n] {
            format!(in alloc; "1,issue,{id},fault\n")?
        } else {
            count = count.saturating_add(1);
            format!(in alloc; "1,issue,{id},accepted,{count}\n")?
        };
        text.push_str(&line)?;
    }
    Ok(text)
}

fn how_many(faults: &[bool; 6]) -> usize {
    faults.iter().filter(|fault| **fault).count()
}

// The numbers of the policies in a file, record by record, up to the first closed gate.
fn ids_in(alloc: Global, file: &[u8]) -> Result<Vec<u8>, AllocError> {
    let mut ids = Vec::new(alloc);
    for n in 0..8usize {
        let (gate, id) = (file.get(17 + 65 * n), file.get(25 + 65 * n));
        match (gate, id) {
            (Some(1), Some(id)) => ids.push(*id)?,
            _ => return Ok(ids),
        }
    }
    Ok(ids)
}

// Whether a file opens to exactly the accepted ones, or to these and one after them that was answered `fault`.
fn left_right(alloc: Global, file: &[u8], faults: &[bool; 6]) -> Result<bool, AllocError> {
    let ids = ids_in(alloc, file)?;
    let mut left = ids.as_slice();
    let mut last = 0;
    for n in 0..6u8 {
        if !faults[n as usize] {
            let Some((first, rest)) = left.split_first() else {
                return Ok(false);
            };
            if *first != n + 1 {
                return Ok(false);
            }
            last = *first;
            left = rest;
        }
    }
    Ok(match left {
        [] => true,
        [one] => last < *one && *one <= 6 && faults[*one as usize - 1],
        _ => false,
    })
}

// What reopening leaves of a file.
fn reopened<R: Threads + Wait + Sync>(
    rt: &R,
    alloc: Global,
    file: &[u8],
) -> Result<Finished, AllocError> {
    run_on(rt, alloc, "", disk_of(alloc, file, &[])?)
}

// Whether a run in which these calls fail, up to a limit, prints and leaves what it may.
fn holds<R: Threads + Wait + Sync>(
    rt: &R,
    alloc: Global,
    failing: &[u64],
) -> Result<bool, AllocError> {
    let ran = run_on(rt, alloc, SIX, disk_of(alloc, &[], failing)?)?;
    let again = reopened(rt, alloc, ran.disk.bytes())?;
    if ran.status != 8 || again.status != 0 {
        return Ok(false);
    }
    if ran.output.bytes() == b"diskfault\n".as_slice() {
        return Ok(ids_in(alloc, again.disk.bytes())?.is_empty());
    }
    let faults = faulted(ran.output.bytes());
    let many = how_many(&faults);
    let text = answered(alloc, &faults)?;
    let told = 1 <= many && many <= failing.len() && ran.output.bytes() == text.as_bytes();
    Ok(told && left_right(alloc, again.disk.bytes(), &faults)?)
}

// Each call fails alone, and each with the one after it.
#[test]
fn each_failing_call_is_answered(rt: HostRuntime) -> Result<(), AllocError> {
    let alloc = rt.alloc();
    assert_rows!(rt; call in 1..=u64::from(ALL_CALLS) => holds(&rt, alloc, &[call])?; "call {call}");
    assert_rows!(rt; call in 1..=u64::from(ALL_CALLS) =>
        holds(&rt, alloc, &[call, call + 1])?; "calls from {call} on");
    Ok(())
}

// A crash at each moment, when none, one or two of the writes that weren't synced had been done, or a part of each.
#[test]
fn each_crash_leaves_what_was_acknowledged(rt: HostRuntime) -> Result<(), Fail> {
    let alloc = rt.alloc();
    let ran = run_on(&rt, alloc, SIX, disk_of(alloc, &[], &[])?)?;
    assert!(rt; ran.disk.calls() == ALL_CALLS);
    assert_rows!(rt; moment in 0..=ALL_CALLS, keep in [0, 1, 2] => {
        let image = ran.disk.image(alloc, moment, keep).map_err(|_| "no memory")?;
        opens_to(&rt, alloc, &image, acknowledged(moment))?
    }; "call {moment}, {keep} writes");
    assert_rows!(rt; moment in 0..=ALL_CALLS, reached in [1, 16, 17, 32, 64] => {
        let image = ran.disk.torn_image(alloc, moment, reached).map_err(|_| "no memory")?;
        opens_to(&rt, alloc, &image, acknowledged(moment))?
    }; "call {moment}, {reached} bytes");
    Ok(())
}

// How many of the six are answered by then.
fn acknowledged(moment: u32) -> usize {
    (moment.saturating_sub(CREATION_CALLS) / POSTING_CALLS) as usize
}

// Whether a file opens to so many of the six, or to one more.
fn opens_to<R: Threads + Wait + Sync>(
    rt: &R,
    alloc: Global,
    file: &[u8],
    many: usize,
) -> Result<bool, AllocError> {
    let again = reopened(rt, alloc, file)?;
    let ids = ids_in(alloc, again.disk.bytes())?;
    let six: [u8; 6] = [1, 2, 3, 4, 5, 6];
    let in_order = six.starts_with(&ids);
    Ok(again.status == 0 && in_order && (ids.len() == many || ids.len() == many.saturating_add(1)))
}
