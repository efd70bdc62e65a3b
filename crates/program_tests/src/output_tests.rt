// Runs whose output fails at one of its writes, at each one that the text needs: what was written is a prefix of the
// text, and all postings are in the journal.
use crate::devices::{Finished, disk_of, run_beside, shelf_of};
use outside_io::OpenGate;
use std::alloc::{AllocError, Global};
use std::sync::Wait;
use std::thread::Threads;
use test_rows::assert_rows;

const THREE: &str = "1,issue,1,2020-01-01,endowment,0,3,1000.00,400.00\n\
    1,issue,2,2020-01-01,endowment,0,3,1000.00,400.00\n\
    1,issue,3,2020-01-01,endowment,0,3,1000.00,400.00\n";

const TEXT: &str = "1,issue,1,accepted,1\n1,issue,2,accepted,2\n1,issue,3,accepted,3\n";

// A journal of three records.
const WHOLE: usize = 18 + 3 * 65;

// The run in which this write fails, if it gets that far.
fn disturbed<R: Threads + Wait + Sync>(
    rt: &R,
    alloc: Global,
    write: u64,
) -> Result<Finished, AllocError> {
    let shelf = shelf_of(alloc, &[], &[])?;
    let disk = disk_of(alloc, &[], &[])?;
    let none = Vec::new(alloc);
    run_beside(
        rt,
        alloc,
        &["run"],
        THREE,
        &[],
        &[write],
        shelf,
        disk,
        none,
        &OpenGate,
    )
}

// Whether the text was written whole with status 0, or a prefix and not all of it with 7; and all was posted.
fn leaves_a_front(ran: &Finished) -> bool {
    let text = TEXT.as_bytes();
    let written = ran.output.bytes();
    let told = match ran.status {
        0 => written == text,
        7 => written.len() < text.len() && text.starts_with(written),
        _ => false,
    };
    told && ran.disk.bytes().len() == WHOLE
}

#[test]
fn each_failing_write_leaves_a_front(rt: HostRuntime) -> Result<(), AllocError> {
    let alloc = rt.alloc();
    assert_rows!(rt; write in 1..=4u64 => leaves_a_front(&disturbed(&rt, alloc, write)?); "write {write}");
    // the first write is always made
    assert!(rt; disturbed(&rt, alloc, 1)?.status == 7);
    Ok(())
}
