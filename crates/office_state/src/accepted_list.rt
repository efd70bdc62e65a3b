// The accepted commands, for contracts alone.
ghost use Rattle.std.specs.Prelude.{◌≡◌, List, [], ◌∷◌, ◌++◌};
ghost use Rattle.std.specs.Borrow.{ftrue};
ghost use Rattle.policy_types.specs.declared.command.Command.{Command as ACommand};

use policy_types::Command;
use std::marker::Model;

/// The accepted commands, in order. It has no byte: what a program runs on is the book of versions, and this list is
/// what contracts say of it.
#[derive(Drop)]
pub(crate) struct AcceptedList {
    pub ghost commands: { List ACommand },
}

impl Model for AcceptedList {
    ghost also_owns = { λ _. ftrue };
}

// It owns nothing.
unsafe impl Send for AcceptedList {}

impl AcceptedList {
    /// No commands.
    pub(crate) fn new() -> AcceptedList
        ensures { result.commands ≡ [] }
    {
        AcceptedList {}
    }

    /// These commands and one more. It does nothing when the program runs.
    #[inline(always)]
    pub(crate) fn with(&self, _command: &Command) -> AcceptedList
        ensures { result.commands ≡ self.now.commands ++ _command.now ∷ [] }
    {
        AcceptedList {}
    }
}
