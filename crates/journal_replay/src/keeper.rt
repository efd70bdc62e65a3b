// The trait of what keeps the commands of a journal, one after the other.
ghost use Rattle.std.specs.Prelude.{◌≡◌, ℕ, ◌+◌, ◌<◌, List, [], ◌∷◌, ◌++◌, length, MatchResult, OnOk};
ghost use Rattle.policy_types.specs.declared.command.Command.{Command as ACommand};
ghost use Rattle.policy_types.specs.Limits.{most_commands};
ghost use Rattle.policy_types.specs.Valid.{IsValid};
ghost use Rattle.journal_replay.specs.Keeping.{IsUnkept};

use policy_types::{Command, NoMemory};

/// Why a command isn't kept: it can't follow those before it; or it can, and memory was refused.
#[derive(Drop)]
pub enum Unkept {
    Refused,
    NoMemory(NoMemory),
}

/// Keeps a journal's commands, one after the other.
pub trait Keeper {
    /// It keeps exactly these commands.
    ghost stands: { Self → List ACommand → Type 0 };

    /// The next command that it can keep is that of record `n`, counted from 0.
    ghost takes: { Self → ℕ → Type 0 };

    /// The command may follow these.
    ghost follows: { List ACommand → ACommand → Type 0 };

    /// What no command changes.
    ghost mark: { Self → ℕ };

    /// Keeps the command of record `n`, if it can follow those before it.
    fn add(&mut self, n: u32, command: &Command) -> Result<(), Unkept>
        requires valid { IsValid command.now }
        requires few { n < most_commands }
        requires takes { takes self.old n }
        ensures mark { mark self.new ≡ mark self.old }
        ensures takes { OnOk result (takes self.new (n + 1)) }
        ensures kept { (commands : List ACommand) → stands self.old commands → length commands ≡ n → MatchResult result
            (λ u. stands self.new (commands ++ command.now ∷ []))
            (λ why. IsUnkept follows commands command.now why) };
}
