use money_ledgers::Ledger;
use policy_types::{Command, Plan, Policy, Status};
use statements::{balance, print_entry, statement};
use std::alloc::Global;
use test_rows::assert_rows;

const ISSUE: Command = Command::Issue {
    id: 7001,
    day: 18262,
    plan: Plan::Endowment,
    age: 0,
    years: 3,
    amount: 100_000,
    premium: 40_000,
};

// The line of each kind of command.
const ENTRIES: &[(u32, Command, &str)] = &[
    (
        1,
        ISSUE,
        "entry,1,issue,2020-01-01,endowment,0,3,1000.00,400.00\n",
    ),
    (
        2,
        Command::Premium {
            id: 7001,
            day: 18262,
            amount: 40_000,
        },
        "entry,2,premium,2020-01-01,400.00\n",
    ),
    (
        3,
        Command::Alter {
            id: 7001,
            day: 18263,
            amount: 90_000,
            premium: 36_005,
        },
        "entry,3,alter,2020-01-02,900.00,360.05\n",
    ),
    (
        4,
        Command::Lapse {
            id: 7001,
            day: -25567,
        },
        "entry,4,lapse,1900-01-01\n",
    ),
    (
        3_999_999,
        Command::Reinstate {
            id: 7001,
            day: 18993,
            amount: 40_000_000_000,
        },
        "entry,3999999,reinstate,2022-01-01,400000000.00\n",
    ),
    (
        6,
        Command::Claim {
            id: 7001,
            day: 18414,
        },
        "entry,6,claim,2020-06-01\n",
    ),
    (
        7,
        Command::Settle {
            id: 7001,
            day: 18444,
            amount: 1,
        },
        "entry,7,settle,2020-07-01,0.01\n",
    ),
    (
        4_000_000,
        Command::Mature {
            id: 7001,
            day: 84005,
        },
        "entry,4000000,mature,2199-12-31\n",
    ),
    (
        9,
        Command::PaidUp {
            id: 7001,
            day: 18597,
            amount: 30_000,
        },
        "entry,9,paidup,2020-12-01,300.00\n",
    ),
    (10, Command::Upgrade, "entry,10,upgrade\n"),
];

fn is_printed(alloc: Global, position: u32, command: &Command, text: &str) -> bool {
    if !command.is_valid() {
        return false;
    }
    match print_entry(alloc, position, command) {
        Ok(printed) => printed.as_slice() == text.as_bytes(),
        Err(_) => false,
    }
}

#[test]
fn entries(rt: HostRuntime) {
    assert_rows!(rt; (position, command, text) in ENTRIES =>
        is_printed(rt.alloc(), *position, command, text); "{text}");
}

// A plan, a status and premiums paid, and the line of a policy with no entries.
const POLICIES: &[(Plan, Status, u8, &str)] = &[
    (
        Plan::Term,
        Status::InForce,
        0,
        "policy,7001,inforce,term,0,3,1000.00,400.00,2020-01-01,0,600.00\n",
    ),
    (
        Plan::Whole,
        Status::Lapsed,
        131,
        "policy,7001,lapsed,whole,0,3,1000.00,400.00,2020-01-01,131,600.00\n",
    ),
    (
        Plan::Endowment,
        Status::Matured,
        3,
        "policy,7001,matured,endowment,0,3,1000.00,400.00,2020-01-01,3,600.00\n",
    ),
    (
        Plan::Limited,
        Status::Expired,
        10,
        "policy,7001,expired,limited,0,3,1000.00,400.00,2020-01-01,10,600.00\n",
    ),
    (
        Plan::Limited,
        Status::Settled,
        255,
        "policy,7001,settled,limited,0,3,1000.00,400.00,2020-01-01,255,600.00\n",
    ),
    (
        Plan::Term,
        Status::PaidUp,
        1,
        "policy,7001,paidup,term,0,3,1000.00,400.00,2020-01-01,1,600.00\n",
    ),
];

// An endowment of 1000.00 after a claim and a settlement of 400.00, except for what is given.
fn policy(plan: Plan, status: Status, paid: u8) -> Policy {
    Policy {
        id: 7001,
        plan,
        age: 0,
        years: 3,
        amount: 100_000,
        premium: 40_000,
        issued: 18262,
        last: 18444,
        paid,
        status,
        outstanding: 60_000,
    }
}

fn is_stated(alloc: Global, policy: &Policy, text: &str) -> bool {
    if policy.issued != 18262 {
        return false;
    }
    match statement(alloc, &[], policy) {
        Ok(printed) => printed.as_slice() == text.as_bytes(),
        Err(_) => false,
    }
}

#[test]
fn policies(rt: HostRuntime) {
    assert_rows!(rt; (plan, status, paid, text) in POLICIES =>
        is_stated(rt.alloc(), &policy(*plan, *status, *paid), text); "{text}");
}

const PREMIUM: Command = Command::Premium {
    id: 7001,
    day: 18262,
    amount: 40_000,
};

const CLAIM: Command = Command::Claim {
    id: 7001,
    day: 18414,
};

const SETTLE: Command = Command::Settle {
    id: 7001,
    day: 18444,
    amount: 40_000,
};

const SETTLED: &str = "entry,1,issue,2020-01-01,endowment,0,3,1000.00,400.00\n\
    entry,2,premium,2020-01-01,400.00\n\
    entry,3,claim,2020-06-01\n\
    entry,4,settle,2020-07-01,400.00\n\
    policy,7001,claimed,endowment,0,3,1000.00,400.00,2020-01-01,1,600.00\n";

// One policy's entries after a claim and a settlement, and the policy.
#[test]
fn claim_and_settle(rt: HostRuntime) {
    assert!(rt; ISSUE.is_valid() && PREMIUM.is_valid() && CLAIM.is_valid() && SETTLE.is_valid());
    let policy = policy(Plan::Endowment, Status::Claimed, 1);
    assert!(rt; policy.issued == 18262);
    let entries = [(1, ISSUE), (2, PREMIUM), (3, CLAIM), (4, SETTLE)];
    let Ok(text) = statement(rt.alloc(), &entries, &policy) else {
        panic!(rt; "no memory");
    };
    assert!(rt; text.as_slice() == SETTLED.as_bytes());
}

// The balances of that policy, and those at the ends of their type.
const BALANCES: &[(Ledger, u32, &str)] = &[
    (
        Ledger {
            cash: 0,
            premiums: -40_000,
            incurred: 100_000,
            payable: -60_000,
        },
        4,
        "balance,cash,0.00\nbalance,premiums,-400.00\nbalance,incurred,1000.00\nbalance,payable,-600.00\ncount,4\n",
    ),
    (
        Ledger {
            cash: i64::MAX,
            premiums: i64::MIN,
            incurred: 5,
            payable: -5,
        },
        4_294_967_295,
        "balance,cash,92233720368547758.07\nbalance,premiums,-92233720368547758.08\nbalance,incurred,0.05\nbalance,payable,-0.05\ncount,4294967295\n",
    ),
];

fn is_balance(alloc: Global, ledger: &Ledger, count: u32, text: &str) -> bool {
    match balance(alloc, ledger, count) {
        Ok(printed) => printed.as_slice() == text.as_bytes(),
        Err(_) => false,
    }
}

#[test]
fn balances(rt: HostRuntime) {
    assert_rows!(rt; (ledger, count, text) in BALANCES =>
        is_balance(rt.alloc(), ledger, *count, text); "{text}");
}
