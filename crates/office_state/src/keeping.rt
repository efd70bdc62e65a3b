// The books keep a journal's commands while an office is opened: each is decided anew.
ghost use Rattle.std.specs.Prelude.{◌≡◌, None, length};
ghost use Rattle.policy_machine.specs.Book.{judge as judge_of};
ghost use Rattle.office_state.specs.inside.Books.{commands_in, floor_in};

use crate::books::Books;
use journal_replay::{Keeper, Unkept};
use policy_types::Command;

impl Keeper for Books {
    ghost stands = { λ books commands. commands_in books ≡ commands };

    ghost takes = { λ books n. length (commands_in books) ≡ n };

    ghost follows = { λ commands command. judge_of commands command ≡ None };

    ghost mark = { λ books. floor_in books };

    fn add(&mut self, _: u32, command: &Command) -> Result<(), Unkept> {
        let place = self.place_of(command);
        let Ok(after) = self.judgement(place, command) else {
            return Err(Unkept::Refused);
        };
        if let Err(lack) = self.reserve(place) {
            return Err(Unkept::NoMemory(lack));
        }
        self.keep(place, command, after);
        Ok(())
    }
}
