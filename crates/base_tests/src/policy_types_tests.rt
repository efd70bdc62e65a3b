use policy_types::{Command, Line, Lines, Plan};
use test_rows::assert_rows;

struct Limit {
    command: Command,
    valid: bool,
}

// The limits of an issue, on both sides.
const LIMITS: &[Limit] = &[
    Limit {
        command: Command::Issue {
            id: 1,
            day: -25567,
            plan: Plan::Term,
            age: 129,
            years: 2,
            amount: 1,
            premium: 1,
        },
        valid: true,
    },
    Limit {
        command: Command::Issue {
            id: u32::MAX,
            day: 84005,
            plan: Plan::Whole,
            age: 0,
            years: 0,
            amount: 10_000_000_000,
            premium: 10_000_000_000,
        },
        valid: true,
    },
    Limit {
        command: Command::Issue {
            id: 0,
            day: 0,
            plan: Plan::Term,
            age: 30,
            years: 10,
            amount: 100,
            premium: 100,
        },
        valid: false,
    },
    Limit {
        command: Command::Issue {
            id: 1,
            day: -25568,
            plan: Plan::Term,
            age: 30,
            years: 10,
            amount: 100,
            premium: 100,
        },
        valid: false,
    },
    Limit {
        command: Command::Issue {
            id: 1,
            day: 84006,
            plan: Plan::Term,
            age: 30,
            years: 10,
            amount: 100,
            premium: 100,
        },
        valid: false,
    },
    Limit {
        command: Command::Issue {
            id: 1,
            day: 0,
            plan: Plan::Limited,
            age: 30,
            years: 1,
            amount: 100,
            premium: 100,
        },
        valid: false,
    },
    Limit {
        command: Command::Issue {
            id: 1,
            day: 0,
            plan: Plan::Endowment,
            age: 30,
            years: 101,
            amount: 100,
            premium: 100,
        },
        valid: true,
    },
    Limit {
        command: Command::Issue {
            id: 1,
            day: 0,
            plan: Plan::Endowment,
            age: 30,
            years: 102,
            amount: 100,
            premium: 100,
        },
        valid: false,
    },
    Limit {
        command: Command::Issue {
            id: 1,
            day: 0,
            plan: Plan::Whole,
            age: 130,
            years: 0,
            amount: 100,
            premium: 100,
        },
        valid: false,
    },
    Limit {
        command: Command::Issue {
            id: 1,
            day: 0,
            plan: Plan::Whole,
            age: 30,
            years: 1,
            amount: 100,
            premium: 100,
        },
        valid: false,
    },
    Limit {
        command: Command::Issue {
            id: 1,
            day: 0,
            plan: Plan::Term,
            age: 30,
            years: 10,
            amount: 0,
            premium: 0,
        },
        valid: false,
    },
    Limit {
        command: Command::Issue {
            id: 1,
            day: 0,
            plan: Plan::Term,
            age: 30,
            years: 10,
            amount: 10_000_000_001,
            premium: 10_000_000_001,
        },
        valid: false,
    },
];

#[test]
fn limits_of_an_issue(rt: HostRuntime) {
    assert_rows!(rt; (row, limit) in LIMITS.iter().enumerate() =>
        limit.command.is_valid(), limit.valid; "row {row}");
}

// A list of lines gives back the vector from which it was made.
#[test]
fn lines_are_their_vector(rt: HostRuntime) {
    let lines = Lines::new(Vec::new(rt.alloc()));
    assert_eq!(rt; lines.as_slice().len(), 0);
    let mut vector = lines.into_vec();
    assert!(rt; vector.push(Line::Trim).is_ok());
    assert_eq!(rt; Lines::new(vector).as_slice(), &[Line::Trim][..]);
}
