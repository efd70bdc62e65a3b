// The books by number keep a journal's commands: each is decided anew.
ghost use Rattle.std.specs.Prelude.{◌≡◌, None};
ghost use Rattle.policy_machine.specs.Book.{judge as judge_of};
ghost use Rattle.checkpoint_store.specs.inside.Numbered.{AreBooksOf, AreSoundBooks};

use crate::numbered::NumberedBooks;
use journal_replay::{Keeper, Unkept};
use policy_types::Command;

impl Keeper for NumberedBooks {
    ghost stands = { λ books commands. AreBooksOf commands books };

    ghost takes = { λ books n. AreSoundBooks books × (books.position ≡ n) };

    ghost follows = { λ commands command. judge_of commands command ≡ None };

    ghost mark = { λ books. 0 };

    fn add(&mut self, n: u32, command: &Command) -> Result<(), Unkept> {
        let (index, judged) = self.judgement(command);
        let Ok(after) = judged else {
            return Err(Unkept::Refused);
        };
        match after {
            Some(policy) => self.set(index, command, policy),
            None => {
                self.position += 1;
                self.upgrade = self.position;
                Ok(())
            }
        }
    }
}
