// Each command after others, judged by the rules.
ghost use Rattle.policy_machine.specs.Rules.{IsSound};
ghost use Rattle.std.specs.Prelude.{IfOk, IfSome};

use crate::paid_up_rows::PAID_UP_ROWS;
use crate::policy_machine_rows::{ROWS, State, Step};
use Plan::{Endowment, Limited};
use Status::InForce;
use Step::{Alter, Claim, Issue, Lapse, Mature, Pay, Reduce, Reinstate, Settle};
use policy_machine::{decide, judge, upgrade_place};
use policy_types::{Command, Plan, Policy, Refusal, Status};
use std::process::Abort;
use test_rows::assert_rows;

fn command(step: Step) -> Command {
    let id = 7001;
    match step {
        Issue(plan) => Command::Issue {
            id,
            day: 18_262,
            plan,
            age: 40,
            years: if plan == Endowment { 5 } else { 2 },
            amount: 100_000,
            premium: 15_000,
        },
        Pay(day, amount) => Command::Premium { id, day, amount },
        Alter(day, amount, premium) => Command::Alter {
            id,
            day,
            amount,
            premium,
        },
        Lapse(day) => Command::Lapse { id, day },
        Reinstate(day, amount) => Command::Reinstate { id, day, amount },
        Claim(day) => Command::Claim { id, day },
        Settle(day, amount) => Command::Settle { id, day, amount },
        Mature(day) => Command::Mature { id, day },
        Reduce(day, amount) => Command::PaidUp { id, day, amount },
    }
}

fn state(policy: Policy) -> State {
    let Policy {
        last,
        amount,
        premium,
        paid,
        status,
        outstanding,
        ..
    } = policy;
    (last, amount, premium, paid, status, outstanding)
}

// The result of a valid command that names the policy's number.
fn answer(rt: &impl Abort, policy: Option<Policy>, command: Command) -> Result<Policy, Refusal>
    requires { IfSome policy IsSound }
    ensures { IfOk result IsSound }
{
    assert!(rt; command.is_valid());
    assert!(rt; !command.is_upgrade());
    match policy {
        Some(policy) => {
            assert!(rt; policy.id == command.id());
            decide(Some(&policy), &command)
        }
        None => decide(None, &command),
    }
}

// The policy after steps that are all accepted.
fn after(rt: &impl Abort, steps: &[Step]) -> Option<Policy>
    ensures { IfSome result IsSound }
{
    let mut policy = None;
    for step in steps {
        policy = match answer(rt, policy, command(*step)) {
            Ok(policy) => Some(policy),
            Err(_) => {
                assert!(rt; false);
                None
            }
        };
    }
    policy
}

fn found(rt: &impl Abort, before: &[Step], step: Step) -> Result<State, Refusal> {
    Ok(state(answer(rt, after(rt, before), command(step))?))
}

#[test]
fn each_command_is_answered_by_the_rules(rt: HostRuntime) {
    assert_rows!(rt; rows in [ROWS, PAID_UP_ROWS], (name, before, step, wanted) in rows =>
        found(&rt, before, *step), *wanted; "{name}");
}

const REDUCE: Command = Command::PaidUp {
    id: 7001,
    day: 18_300,
    amount: 30_000,
};

/// The place of the upgrade, a command for a policy that doesn't exist, and its result.
type Judged = (u32, Command, Result<Option<Policy>, Refusal>);

const JUDGED: &[Judged] = &[
    (0, REDUCE, Err(Refusal::NotUpgraded)),
    (3, REDUCE, Err(Refusal::Unknown)),
    (0, Command::Upgrade, Ok(None)),
    (3, Command::Upgrade, Err(Refusal::Upgraded(3))),
];

fn is_judged(judged: &Judged) -> bool {
    let (upgrade, command, answer) = judged;
    command.is_valid() && judge(*upgrade, None, command) == *answer
}

// What needs an upgrade, and that there is only one; its place is counted from 1.
#[test]
fn commands_are_judged_by_the_place_of_the_upgrade(rt: HostRuntime) {
    assert_rows!(rt; (row, judged) in JUDGED.iter().enumerate() => is_judged(judged); "row {row}");
    assert_eq!(rt; upgrade_place(0, 2, &REDUCE), 0);
    assert_eq!(rt; upgrade_place(0, 2, &Command::Upgrade), 3);
    assert_eq!(rt; upgrade_place(3, 9, &Command::Upgrade), 3);
}

#[test]
fn an_issue_makes_the_policy(rt: HostRuntime) {
    let policy = Policy {
        id: 7001,
        plan: Limited,
        age: 40,
        years: 2,
        amount: 100_000,
        premium: 15_000,
        issued: 18_262,
        last: 18_262,
        paid: 0,
        status: InForce,
        outstanding: 0,
    };
    assert_eq!(rt; after(&rt, &[Issue(Limited)]), Some(policy));
}
