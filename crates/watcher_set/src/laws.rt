ghost use Rattle.std.specs.Prelude.{List, Bool};
ghost use Rattle.policy_types.specs.declared.command.Command.{Command};
ghost use Rattle.watcher_set.specs.Noted.{noted_of, IsNoted};

/// What a watcher notes are the commands up to and with the first after which it is done.
pub fn noted_to_the_first_end()
    ensures { (stops : List Command → Bool) (commands : List Command)
        → IsNoted stops commands (noted_of stops commands) }
{}
