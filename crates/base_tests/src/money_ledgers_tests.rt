use money_ledgers::Ledger;
use policy_types::{Command, Plan, Policy, Status};
use test_rows::assert_rows;

// A command, the endowment of 1000.00 as it leaves it, and the balances that it makes of empty accounts, worked by
// hand.
struct Row {
    command: Command,
    status: Status,
    outstanding: u64,
    ledger: Ledger,
}

const ROWS: &[Row] = &[
    Row {
        command: Command::Issue {
            id: 7001,
            day: 18262,
            plan: Plan::Endowment,
            age: 0,
            years: 3,
            amount: 100_000,
            premium: 40_000,
        },
        status: Status::InForce,
        outstanding: 0,
        ledger: Ledger {
            cash: 0,
            premiums: 0,
            incurred: 0,
            payable: 0,
        },
    },
    Row {
        command: Command::Premium {
            id: 7001,
            day: 18262,
            amount: 40_000,
        },
        status: Status::InForce,
        outstanding: 0,
        ledger: Ledger {
            cash: 40_000,
            premiums: -40_000,
            incurred: 0,
            payable: 0,
        },
    },
    Row {
        command: Command::Alter {
            id: 7001,
            day: 18262,
            amount: 90_000,
            premium: 36_000,
        },
        status: Status::InForce,
        outstanding: 0,
        ledger: Ledger {
            cash: 0,
            premiums: 0,
            incurred: 0,
            payable: 0,
        },
    },
    Row {
        command: Command::Lapse {
            id: 7001,
            day: 18262,
        },
        status: Status::Lapsed,
        outstanding: 0,
        ledger: Ledger {
            cash: 0,
            premiums: 0,
            incurred: 0,
            payable: 0,
        },
    },
    Row {
        command: Command::Reinstate {
            id: 7001,
            day: 18262,
            amount: 80_000,
        },
        status: Status::InForce,
        outstanding: 0,
        ledger: Ledger {
            cash: 80_000,
            premiums: -80_000,
            incurred: 0,
            payable: 0,
        },
    },
    Row {
        command: Command::Claim {
            id: 7001,
            day: 18262,
        },
        status: Status::Claimed,
        outstanding: 100_000,
        ledger: Ledger {
            cash: 0,
            premiums: 0,
            incurred: 100_000,
            payable: -100_000,
        },
    },
    Row {
        command: Command::Settle {
            id: 7001,
            day: 18262,
            amount: 40_000,
        },
        status: Status::Claimed,
        outstanding: 60_000,
        ledger: Ledger {
            cash: -40_000,
            premiums: 0,
            incurred: 0,
            payable: 40_000,
        },
    },
    Row {
        command: Command::Mature {
            id: 7001,
            day: 18262,
        },
        status: Status::Matured,
        outstanding: 100_000,
        ledger: Ledger {
            cash: 0,
            premiums: 0,
            incurred: 100_000,
            payable: -100_000,
        },
    },
    Row {
        command: Command::PaidUp {
            id: 7001,
            day: 18262,
            amount: 30_000,
        },
        status: Status::PaidUp,
        outstanding: 0,
        ledger: Ledger {
            cash: 0,
            premiums: 0,
            incurred: 0,
            payable: 0,
        },
    },
    Row {
        command: Command::Mature {
            id: 7001,
            day: 18262,
        },
        status: Status::Expired,
        outstanding: 0,
        ledger: Ledger {
            cash: 0,
            premiums: 0,
            incurred: 0,
            payable: 0,
        },
    },
];

fn after(row: &Row) -> Policy {
    Policy {
        id: 7001,
        plan: Plan::Endowment,
        age: 0,
        years: 3,
        amount: 100_000,
        premium: 40_000,
        issued: 18262,
        last: 18262,
        paid: 1,
        status: row.status,
        outstanding: row.outstanding,
    }
}

// The balances after this command alone, if it may be posted.
fn posted(row: &Row) -> Option<Ledger> {
    let policy = after(row);
    if !row.command.is_valid() || row.command.is_upgrade() || policy.amount > 10_000_000_000 {
        return None;
    }
    let mut balances = Ledger::new();
    balances.post(&row.command, &policy);
    Some(balances)
}

#[test]
fn one_command(rt: HostRuntime) {
    assert_rows!(rt; (number, row) in ROWS.iter().enumerate() =>
        posted(row), Some(row.ledger); "row {number}");
}
