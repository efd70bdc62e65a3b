// Forty commands on eight policies, each at its part of a policy's life, in turn with the others.
use policy_types::{Command, Plan};

// 2020-01-01 to 2023-01-01, the issue and its anniversaries.
const ISSUED: i32 = 18_262;

const SECOND: i32 = 18_628;

const THIRD: i32 = 18_993;

const END: i32 = 19_358;

pub(crate) const COMMANDS: &[Command] = &[
    Command::Issue {
        id: 1,
        day: ISSUED,
        plan: Plan::Endowment,
        age: 0,
        years: 3,
        amount: 100_000,
        premium: 40_000,
    },
    Command::Premium {
        id: 1,
        day: ISSUED,
        amount: 40_000,
    },
    Command::Issue {
        id: 2,
        day: ISSUED,
        plan: Plan::Endowment,
        age: 0,
        years: 3,
        amount: 100_000,
        premium: 40_000,
    },
    Command::Premium {
        id: 2,
        day: ISSUED,
        amount: 40_000,
    },
    Command::Alter {
        id: 2,
        day: ISSUED + 10,
        amount: 60_000,
        premium: 30_000,
    },
    Command::Issue {
        id: 3,
        day: ISSUED,
        plan: Plan::Endowment,
        age: 0,
        years: 3,
        amount: 100_000,
        premium: 40_000,
    },
    Command::Premium {
        id: 1,
        day: SECOND,
        amount: 40_000,
    },
    Command::Premium {
        id: 3,
        day: ISSUED,
        amount: 40_000,
    },
    Command::Issue {
        id: 4,
        day: ISSUED,
        plan: Plan::Endowment,
        age: 0,
        years: 3,
        amount: 100_000,
        premium: 40_000,
    },
    Command::Claim {
        id: 3,
        day: ISSUED + 100,
    },
    Command::Premium {
        id: 4,
        day: ISSUED,
        amount: 40_000,
    },
    Command::Issue {
        id: 5,
        day: ISSUED,
        plan: Plan::Endowment,
        age: 0,
        years: 3,
        amount: 100_000,
        premium: 40_000,
    },
    Command::Settle {
        id: 3,
        day: ISSUED + 120,
        amount: 40_000,
    },
    Command::Premium {
        id: 5,
        day: ISSUED,
        amount: 40_000,
    },
    Command::Issue {
        id: 6,
        day: ISSUED,
        plan: Plan::Endowment,
        age: 0,
        years: 3,
        amount: 100_000,
        premium: 40_000,
    },
    Command::Lapse {
        id: 4,
        day: SECOND + 40,
    },
    Command::Premium {
        id: 2,
        day: SECOND,
        amount: 30_000,
    },
    Command::Premium {
        id: 6,
        day: ISSUED,
        amount: 40_000,
    },
    Command::Issue {
        id: 7,
        day: ISSUED,
        plan: Plan::Endowment,
        age: 0,
        years: 3,
        amount: 100_000,
        premium: 40_000,
    },
    Command::Settle {
        id: 3,
        day: ISSUED + 130,
        amount: 60_000,
    },
    Command::Premium {
        id: 7,
        day: ISSUED,
        amount: 40_000,
    },
    Command::Reinstate {
        id: 4,
        day: SECOND + 72,
        amount: 40_000,
    },
    Command::Premium {
        id: 5,
        day: SECOND,
        amount: 40_000,
    },
    Command::Issue {
        id: 8,
        day: ISSUED,
        plan: Plan::Endowment,
        age: 0,
        years: 3,
        amount: 100_000,
        premium: 40_000,
    },
    Command::Alter {
        id: 5,
        day: SECOND + 5,
        amount: 50_000,
        premium: 20_000,
    },
    Command::Lapse {
        id: 6,
        day: SECOND + 40,
    },
    Command::Premium {
        id: 8,
        day: ISSUED,
        amount: 40_000,
    },
    Command::Premium {
        id: 7,
        day: SECOND,
        amount: 40_000,
    },
    Command::Premium {
        id: 1,
        day: THIRD,
        amount: 40_000,
    },
    Command::Claim {
        id: 7,
        day: SECOND + 3,
    },
    Command::Premium {
        id: 4,
        day: THIRD,
        amount: 40_000,
    },
    Command::Settle {
        id: 7,
        day: SECOND + 9,
        amount: 100_000,
    },
    Command::Premium {
        id: 8,
        day: SECOND,
        amount: 40_000,
    },
    Command::Premium {
        id: 5,
        day: THIRD,
        amount: 20_000,
    },
    Command::Claim {
        id: 4,
        day: THIRD + 10,
    },
    Command::Mature { id: 1, day: END },
    Command::Premium {
        id: 8,
        day: THIRD,
        amount: 40_000,
    },
    Command::Settle {
        id: 1,
        day: END,
        amount: 100_000,
    },
    Command::Mature { id: 8, day: END },
    Command::Settle {
        id: 8,
        day: END + 1,
        amount: 50_000,
    },
];
