// Runs whose lanes wait until others have come as far as a gate says: a lane must never have to wait for another's
// end. The reserves are worked out by hand: for each policy, after one year, 127.22 to 127.23.
use crate::devices::{disk_of, run_gated, run_on};
use crate::gates::{Between, Held, Together};
use std::alloc::{AllocError, Global};
use std::sync::atomic::{AtomicU32, Ordering};
use test_rows::assert_rows;

// The lines of this lane.
fn lines_of(alloc: Global, text: &[u8], lane: u8) -> Result<Vec<u8>, AllocError> {
    let mut lines = Vec::new(alloc);
    for line in text.split(|byte| *byte == b'\n') {
        if line.first() == Some(&lane) {
            lines.extend_from_slice(line)?;
            lines.push(b'\n')?;
        }
    }
    Ok(lines)
}

// The issues of the policies of the numbers from 1 to this one.
fn issues(alloc: Global, last: u32) -> Result<String, AllocError> {
    let mut script = String::new(alloc);
    for id in 1..=last {
        let line = format!(in alloc; "1,issue,{id},2020-01-01,endowment,0,3,1000.00,400.00\n")?;
        script.push_str(&line)?;
    }
    Ok(script)
}

// What lane 2 prints of their valuation, during which lane 1 posts, and then of these.
fn met(alloc: Global) -> Result<String, AllocError> {
    let mut text = String::from_str(alloc, "2,value,2021-01-01,300,300\n")?;
    for id in 1..=300u32 {
        text.push_str(&format!(in alloc; "row,{id},inforce,1,127.22,127.23\n")?)?;
    }
    text.push_str("total,38166.00,38169.00,0\n")?;
    text.push_str("1,claim,1,accepted,301\n1,trim,300\n1,claim,2,accepted,302\n")?;
    Ok(text)
}

#[test]
fn a_posting_during_a_valuation(rt: HostRuntime) -> Result<(), AllocError> {
    let alloc = rt.alloc();
    let issued = run_on(&rt, alloc, &issues(alloc, 300)?, disk_of(alloc, &[], &[])?)?;
    let gate = Between {
        lines: AtomicU32::new(0),
        batches: AtomicU32::new(0),
        missed: AtomicU32::new(0),
    };
    let script = "1,claim,1,2020-01-15\n2,value,2021-01-01,now,1\n1,trim\n1,claim,2,2020-01-15\n";
    let ran = run_gated(&rt, alloc, script, issued.disk, &gate)?;
    assert!(rt; ran.wrote(0, &met(alloc)?));
    assert_eq!(rt; gate.missed.load(Ordering::SeqCst), 0);
    Ok(())
}

const EIGHT: &str = "1,issue,1,2020-01-01,endowment,0,3,1000.00,400.00\n\
    2,issue,2,2020-01-01,endowment,0,3,1000.00,400.00\n\
    3,issue,3,2020-01-01,endowment,0,3,1000.00,400.00\n\
    4,issue,4,2020-01-01,endowment,0,3,1000.00,400.00\n\
    5,issue,5,2020-01-01,endowment,0,3,1000.00,400.00\n\
    6,issue,6,2020-01-01,endowment,0,3,1000.00,400.00\n\
    7,issue,7,2020-01-01,endowment,0,3,1000.00,400.00\n\
    8,issue,8,2020-01-01,endowment,0,3,1000.00,400.00\n";

// The bytes of `1,issue,1,accepted,1` and its end.
const LINE: usize = 21;

// The number of the lane whose line ends so.
fn lane_at(text: &[u8], position: u8) -> u8 {
    for line in text.split(|byte| *byte == b'\n') {
        if let [
            lane,
            b',',
            b'i',
            b's',
            b's',
            b'u',
            b'e',
            b',',
            id,
            rest @ ..,
        ] = line
        {
            if *lane == *id
                && rest
                    == [
                        b',', b'a', b'c', b'c', b'e', b'p', b't', b'e', b'd', b',', position,
                    ]
                    .as_slice()
            {
                return *lane;
            }
        }
    }
    0
}

// Eight lanes issue a policy each; the issues are accepted at the positions 1 to 8 in some order.
#[test]
fn eight_lanes_at_once(rt: HostRuntime) -> Result<(), AllocError> {
    let alloc = rt.alloc();
    let gate = Together {
        there: AtomicU32::new(0),
        missed: AtomicU32::new(0),
    };
    let ran = run_gated(&rt, alloc, EIGHT, disk_of(alloc, &[], &[])?, &gate)?;
    let text = ran.output.bytes();
    assert!(rt; ran.status == 0 && ran.disk.bytes().len() == 18 + 8 * 65);
    assert!(rt; text.len() == 8 * LINE);
    assert_rows!(rt; lane in b"12345678" => lines_of(alloc, text, *lane)?.len(), LINE; "lane {lane}");
    assert_rows!(rt; position in b"12345678" => lane_at(text, *position) != 0; "position {position}");
    assert_eq!(rt; gate.missed.load(Ordering::SeqCst), 0);
    Ok(())
}

// The second lane's postings are all refused, so that the first lane's have the same positions whatever comes
// between.
const TWO_CLERKS: &str =
    "2,claim,9,2020-01-01\n1,issue,7001,2020-01-01,endowment,0,3,1000.00,400.00\n\
    2,lapse,9,2020-01-01\n1,premium,7001,2020-01-01,400.00\n2,mature,9,2020-01-01\n\
    1,issue,7001,2020-01-01,endowment,0,3,1000.00,400.00\n1,claim,7001,2020-06-01\n";

const FIRST_CLERK: &str =
    "1,issue,7001,accepted,1\n1,premium,7001,accepted,2\n1,issue,7001,refused,taken\n\
    1,claim,7001,accepted,3\n";

const SECOND_CLERK: &str =
    "2,claim,9,refused,unknown\n2,lapse,9,refused,unknown\n2,mature,9,refused,unknown\n";

// The first lane waits for a million looks, and the other goes on.
#[test]
fn two_clerks_have_their_lines_in_order(rt: HostRuntime) -> Result<(), AllocError> {
    let alloc = rt.alloc();
    let gate = Held {
        looks: AtomicU32::new(0),
    };
    let ran = run_gated(&rt, alloc, TWO_CLERKS, disk_of(alloc, &[], &[])?, &gate)?;
    let text = ran.output.bytes();
    assert!(rt; ran.status == 0 && gate.looks.load(Ordering::SeqCst) == 1_000_000);
    assert!(rt; text.len() == FIRST_CLERK.len() + SECOND_CLERK.len());
    assert!(rt; lines_of(alloc, text, b'1')?.as_slice() == FIRST_CLERK.as_bytes());
    assert!(rt; lines_of(alloc, text, b'2')?.as_slice() == SECOND_CLERK.as_bytes());
    Ok(())
}
