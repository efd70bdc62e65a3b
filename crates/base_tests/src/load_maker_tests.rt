use load_maker::{make_lanes, make_script};
use policy_types::{Command, Line};
use std::alloc::Global;
use test_rows::assert_rows;

// The greatest seed, with policies of three plans that are assigned to three lanes.
const FIVE_POLICIES: &str = "1,issue,1,2001-04-01,whole,68,0,966000.00,19320.00\n\
    1,premium,1,2001-04-01,19320.00\n\
    2,issue,2,2001-04-23,term,55,9,351000.00,7020.00\n\
    2,premium,2,2001-04-23,7020.00\n\
    3,issue,3,2008-01-12,whole,52,0,853000.00,17060.00\n\
    3,premium,3,2008-01-12,17060.00\n\
    1,issue,4,2003-04-10,endowment,69,2,715000.00,14300.00\n\
    1,premium,4,2003-04-10,14300.00\n\
    2,issue,5,2008-05-10,whole,28,0,869000.00,17380.00\n\
    2,premium,5,2008-05-10,17380.00\n";

// A seed, policies and lanes, and the script.
const SCRIPTS: &[(u32, u32, u8, &str)] = &[
    (
        1,
        1,
        1,
        "1,issue,1,2008-11-03,endowment,44,18,996000.00,19920.00\n1,premium,1,2008-11-03,19920.00\n",
    ),
    (
        0,
        1,
        8,
        "1,issue,1,2003-10-20,term,30,9,981000.00,19620.00\n1,premium,1,2003-10-20,19620.00\n",
    ),
    (2_147_483_647, 5, 3, FIVE_POLICIES),
];

fn is_made(alloc: Global, seed: u32, count: u32, lanes: u8, text: &str) -> bool {
    if seed > 2_147_483_647 || count < 1 || count > 100_000 || lanes < 1 || lanes > 8 {
        return false;
    }
    match make_script(alloc, seed, count, lanes) {
        Ok(script) => script.as_slice() == text.as_bytes(),
        Err(_) => false,
    }
}

#[test]
fn scripts(rt: HostRuntime) {
    assert_rows!(rt; (seed, count, lanes, text) in SCRIPTS =>
        is_made(rt.alloc(), *seed, *count, *lanes, text); "{text}");
}

// The longest script, by its length and its last rows.
#[test]
fn most_policies(rt: HostRuntime) {
    let Ok(script) = make_script(rt.alloc(), 1, 100_000, 8) else {
        panic!(rt; "no memory");
    };
    let end = "8,issue,100000,2009-04-10,term,45,19,824000.00,16480.00\n\
        8,premium,100000,2009-04-10,16480.00\n";
    assert_eq!(rt; script.len(), 9_126_982);
    assert!(rt; script.as_slice().ends_with(end.as_bytes()));
}

// The rows of the longest script as lanes: the number of lines of each, and the last of them.
#[test]
fn most_lanes(rt: HostRuntime) {
    let Ok(script) = make_lanes(rt.alloc(), 1, 100_000, 8) else {
        panic!(rt; "no memory");
    };
    let lanes = script.as_slice();
    assert_eq!(rt; lanes.len(), 8);
    assert_rows!(rt; lane in lanes => lane.lines.as_slice().len(), 25_000; "lane {}", lane.number);
    let Some(last) = lanes.last() else {
        panic!(rt; "no lanes");
    };
    let premium = Line::Post(Command::Premium {
        id: 100_000,
        day: 14_344,
        amount: 1_648_000,
    });
    assert_eq!(rt; last.number, 8);
    assert!(rt; last.lines.as_slice().last() == Some(&premium));
}

// Fewer policies than lanes.
#[test]
fn lanes_without_rows(rt: HostRuntime) {
    let Ok(script) = make_lanes(rt.alloc(), 0, 3, 8) else {
        panic!(rt; "no memory");
    };
    let lanes = script.as_slice();
    assert_eq!(rt; lanes.len(), 3);
    assert!(rt; lanes.last().is_some_and(|lane| lane.number == 3));
}
