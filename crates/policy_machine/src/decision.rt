ghost use Rattle.std.specs.Prelude.{◌≡◌, false, IfSome, IfOk};
ghost use Rattle.policy_machine.specs.Names.{option_copied, IsValid, id_of, is_upgrade};
ghost use Rattle.policy_machine.specs.Rules.{IsSound, next};

use crate::benefits::{claim, mature, settle};
use crate::contract::{alter, issue};
use crate::premiums::{lapse, pay, reinstate};
use crate::reduction::paid_up;
use policy_types::{Command, Policy, Refusal};

/// What a command makes of the policy with its number. An upgrade names no policy: see `judge`.
///
/// # Errors
///
/// The first of the command's checks that applies. If there is no policy with the number, every command but an issue
/// is `Unknown`.
pub fn decide(policy: Option<&Policy>, command: &Command) -> Result<Policy, Refusal>
    requires valid { IsValid command.now }
    requires named { is_upgrade command.now ≡ false }
    requires own { IfSome (option_copied policy) (λ p. p.id ≡ id_of command.now) }
    requires sound { IfSome (option_copied policy) IsSound }
    ensures decided { result ≡ next (option_copied policy.entry) command.now }
    ensures sound { IfOk result IsSound }
{
    match policy {
        Some(policy) => change(*policy, *command),
        None => begin(*command),
    }
}

// A new policy, if the command issues one.
fn begin(command: Command) -> Result<Policy, Refusal>
    ensures { result ≡ next None command }
{
    match command {
        Command::Issue {
            id,
            day,
            plan,
            age,
            years,
            amount,
            premium,
        } => Ok(issue(id, day, plan, age, years, amount, premium)),
        _ => Err(Refusal::Unknown),
    }
}

fn change(policy: Policy, command: Command) -> Result<Policy, Refusal>
    requires own { policy.id ≡ id_of command }
    requires sound { IsSound policy }
    ensures { result ≡ next (Some policy) command }
{
    match command {
        Command::Issue { .. } => Err(Refusal::Taken),
        Command::Premium { day, amount, .. } => pay(policy, day, amount),
        Command::Alter {
            day,
            amount,
            premium,
            ..
        } => alter(policy, day, amount, premium),
        Command::Lapse { day, .. } => lapse(policy, day),
        Command::Reinstate { day, amount, .. } => reinstate(policy, day, amount),
        Command::Claim { day, .. } => claim(policy, day),
        Command::Settle { day, amount, .. } => settle(policy, day, amount),
        Command::Mature { day, .. } => mature(policy, day),
        Command::PaidUp { day, amount, .. } => paid_up(policy, day, amount),
        Command::Upgrade => Err(Refusal::Unknown),
    }
}
