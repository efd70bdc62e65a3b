// The lines that scripts spell, and the lanes that they make.
ghost use Rattle.std.specs.Prelude.{◌≤◌, length};

use command_csv::read_script;
use policy_types::{At, Command, Line, Plan};
use std::alloc::Global;
use std::test::Fail;
use test_rows::assert_rows;

const MOST_BYTES: usize = 16_777_216;

const SCRIPT: &[u8] = b"1,issue,7001,2020-01-01,endowment,0,3,1000.00,400.00
1,premium,7001,2021-01-01,400.00
1,alter,7001,2021-01-02,500.00,200.00
1,lapse,7001,2022-02-02
1,reinstate,7001,2022-03-01,400000000.00
1,claim,7001,2022-12-31
1,settle,7001,2023-01-15,0.01
1,mature,4294967295,2199-12-31
1,paidup,7001,2020-12-01,300.00
1,upgrade
1,value,2020-01-01,now,64
1,trim
1,value,2022-02-02,4000000,1
";

const LINES: &[Line] = &[
    Line::Post(Command::Issue {
        id: 7001,
        day: 18_262,
        plan: Plan::Endowment,
        age: 0,
        years: 3,
        amount: 100_000,
        premium: 40_000,
    }),
    Line::Post(Command::Premium {
        id: 7001,
        day: 18_628,
        amount: 40_000,
    }),
    Line::Post(Command::Alter {
        id: 7001,
        day: 18_629,
        amount: 50_000,
        premium: 20_000,
    }),
    Line::Post(Command::Lapse {
        id: 7001,
        day: 19_025,
    }),
    Line::Post(Command::Reinstate {
        id: 7001,
        day: 19_052,
        amount: 40_000_000_000,
    }),
    Line::Post(Command::Claim {
        id: 7001,
        day: 19_357,
    }),
    Line::Post(Command::Settle {
        id: 7001,
        day: 19_372,
        amount: 1,
    }),
    Line::Post(Command::Mature {
        id: 4_294_967_295,
        day: 84_005,
    }),
    Line::Post(Command::PaidUp {
        id: 7001,
        day: 18_597,
        amount: 30_000,
    }),
    Line::Post(Command::Upgrade),
    Line::Value {
        on: 18_262,
        at: At::Now,
        workers: 64,
    },
    Line::Trim,
    Line::Value {
        on: 19_025,
        at: At::Position(4_000_000),
        workers: 1,
    },
];

#[test]
fn lines_are_read_as_they_are_written(rt: HostRuntime) -> Result<(), Fail> {
    assert!(rt; SCRIPT.len() <= MOST_BYTES);
    let script = read_script(rt.alloc(), SCRIPT)?;
    let [lane] = script.as_slice() else {
        return Err("one lane")?;
    };
    assert!(rt; lane.number == 1);
    assert!(rt; lane.lines.as_slice() == LINES);
    Ok(())
}

// For each lane its number, and for its lines the policies that lapse, with 0 for a trim.
fn dealt(alloc: Global, script: &[u8]) -> Result<Vec<u32>, Fail>
    requires { length script.now ≤ MOST_BYTES }
{
    let script = read_script(alloc, script)?;
    let mut dealt = Vec::new(alloc);
    for lane in script.as_slice() {
        dealt.push(u32::from(lane.number))?;
        for line in lane.lines.as_slice() {
            match line {
                Line::Post(Command::Lapse { id, .. }) => dealt.push(*id)?,
                _ => dealt.push(0)?,
            }
        }
    }
    Ok(dealt)
}

// Lanes are in the order of their numbers, whichever comes first, each with its rows in order; a number without rows
// has no lane.
const DEALT: &[(&[u8], &[u32])] = &[
    (b"8,trim", &[8, 0]),
    (
        b"8,lapse,81,2020-01-01\n1,lapse,11,2020-01-01\n8,trim\n1,trim\n8,lapse,82,2020-01-01",
        &[1, 11, 0, 8, 81, 0, 82],
    ),
    (
        b"3,lapse,31,2020-01-01\n2,lapse,21,2020-01-01\n7,lapse,71,2020-01-01\n2,lapse,22,2020-01-01
7,lapse,72,2020-01-01\n3,lapse,32,2020-01-01\n3,lapse,33,2020-01-01\n2,lapse,23,2020-01-01",
        &[2, 21, 22, 23, 3, 31, 32, 33, 7, 71, 72],
    ),
    (
        b"8,trim\n7,trim\n6,trim\n5,trim\n4,trim\n3,trim\n2,trim\n1,trim\n",
        &[1, 0, 2, 0, 3, 0, 4, 0, 5, 0, 6, 0, 7, 0, 8, 0],
    ),
];

#[test]
fn lanes_are_dealt_out(rt: HostRuntime) -> Result<(), Fail> {
    assert_rows!(rt; (script, want) in DEALT =>
        script.len() <= MOST_BYTES && dealt(rt.alloc(), script)?.as_slice() == *want; "{script:?}");
    Ok(())
}
