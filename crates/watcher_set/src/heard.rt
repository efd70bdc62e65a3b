ghost use Rattle.std.specs.Prelude.{◌≡◌, [], ◌∷◌, ◌++◌};

use policy_types::Command;
use std::marker::Model;
use std::mem;
use std::snapshot::Snapshot;

/// What a watcher has noted, from its last command back to its first.
#[derive(Drop)]
enum Told {
    Nothing,
    Of {
        earlier: Snapshot<Told>,
        command: Command,
    },
}

/// The commands that a watcher noted, as contracts see them, in order. It takes no bytes: the watcher keeps only
/// numbers.
#[derive(Drop)]
pub(crate) struct Heard {
    told: Snapshot<Told>,
}

impl Model for Heard {
    ghost use Rattle.std.specs.Prelude.{List};
    ghost use Rattle.policy_types.specs.declared.command.Command.{Command};
    ghost use Rattle.watcher_set.specs.inside.Heard.{all_told};

    ghost Value = { List Command };

    ghost view = { λ heard. all_told heard.told.value };
}

impl Heard {
    pub(crate) fn nothing() -> Heard
        ensures { result ≡ [] }
    {
        Heard {
            told: Snapshot::of(&Told::Nothing),
        }
    }

    pub(crate) fn hear(&mut self, command: &Command)
        ensures { self.new ≡ self.old ++ command.now ∷ [] }
    {
        let earlier = mem::replace(&mut self.told, Snapshot::of(&Told::Nothing));
        let told = Told::Of {
            earlier,
            command: *command,
        };
        self.told = Snapshot::of(&told);
    }
}
