// Whether a command is accepted after those before it.
ghost use Rattle.std.specs.Prelude.{◌≡◌, ◌<◌, ◌++◌, ◌∷◌, [], List, Some, None, IfSome, IfOk, length};
ghost use Rattle.policy_machine.specs.Names.{option_copied, result_map_both, ACommand, Upgrade, IsValid, id_of, most_commands};
ghost use Rattle.policy_machine.specs.Book.{judged, upgrade_of};
ghost use Rattle.policy_machine.specs.Rules.{IsSound};

use crate::decision::decide;
use policy_types::{Command, Policy, Refusal};

/// What the rules make of a command after those before it: the policy that it leaves, which is none for an upgrade.
/// `upgrade` is the place of the upgrade among the earlier commands, or 0; `policy` is the policy that the command
/// names, if there is one.
///
/// # Errors
///
/// Why the command is refused.
pub fn judge(
    upgrade: u32,
    policy: Option<&Policy>,
    command: &Command,
) -> Result<Option<Policy>, Refusal>
    requires valid { IsValid command.now }
    requires own { IfSome (option_copied policy) (λ p. p.id ≡ id_of command.now) }
    requires sound { IfSome (option_copied policy) IsSound }
    ensures judged { result ≡ judged upgrade (option_copied policy.entry) command.now }
    ensures sound { IfOk result (λ left. IfSome left IsSound) }
{
    match *command {
        Command::Upgrade => once(upgrade),
        Command::PaidUp { .. } => {
            if upgrade == 0 {
                return Err(Refusal::NotUpgraded);
            }
            leaving(decide(policy, command))
        }
        _ => leaving(decide(policy, command)),
    }
}

// A journal is upgraded only once.
fn once(upgrade: u32) -> Result<Option<Policy>, Refusal>
    ensures judged { result ≡ judged upgrade None Upgrade }
    ensures none { IfOk result (λ left. left ≡ None) }
{
    if upgrade != 0 {
        return Err(Refusal::Upgraded(upgrade));
    }
    Ok(None)
}

fn leaving(decision: Result<Policy, Refusal>) -> Result<Option<Policy>, Refusal>
    ensures { result ≡ result_map_both Some (λ refusal. refusal) decision }
{
    match decision {
        Ok(after) => Ok(Some(after)),
        Err(refusal) => Err(refusal),
    }
}

/// The place of the upgrade after one more command, or 0. `upgrade` is the place before that command, and `count` is
/// the number of commands before it.
pub fn upgrade_place(upgrade: u32, count: u32, command: &Command) -> u32
    requires few { count < most_commands }
    ensures { (before : List ACommand) → upgrade ≡ upgrade_of before → count ≡ length before
        → result ≡ upgrade_of (before ++ command.now ∷ []) }
{
    if !command.is_upgrade() {
        return upgrade;
    }
    if upgrade == 0 { count + 1 } else { upgrade }
}
