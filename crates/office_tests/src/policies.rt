// The commands that several tests post.
use policy_types::{Command, Plan};

/// 2020-01-01
pub(crate) const NEW_YEAR: i32 = 18262;

/// An endowment of 1000.00 for three years at age 0, with an annual premium of 400.00.
pub(crate) fn issue(id: u32, day: i32) -> Command {
    Command::Issue {
        id,
        day,
        plan: Plan::Endowment,
        age: 0,
        years: 3,
        amount: 100_000,
        premium: 40_000,
    }
}

/// The first or a later premium of the policy 7001.
pub(crate) fn premium(day: i32) -> Command {
    premium_of(7001, day)
}

/// The first or a later premium of such a policy.
pub(crate) fn premium_of(id: u32, day: i32) -> Command {
    Command::Premium {
        id,
        day,
        amount: 40_000,
    }
}
