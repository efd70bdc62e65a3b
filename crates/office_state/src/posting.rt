// A command is posted.
ghost use Rattle.std.specs.Prelude.{◌≡◌, ◌≢◌, ◌^◌, ◌<◌, ◌++◌, [], ◌∷◌, OnOk, List, ℕ};
ghost use Rattle.office_state.specs.Names.{IsValid, ACommand, Entry, IsPlaceIn};
ghost use Rattle.office_state.specs.Posting.{CrashesIn, KeepsOffice, turn_of};
ghost use Rattle.office_state.specs.Standing.{StandsFor};
ghost use Rattle.office_state.specs.States.{disk_of, opening_of, turns_of};
ghost use Rattle.office_state.specs.inside.Books.{CanKeep, IsPlaceOf, commands_in, floor_in};
ghost use Rattle.office_state.specs.inside.Turns.{one_more};
ghost use Rattle.watcher_set.specs.Evidence.{a_lack};

use crate::answer::Answer;
use crate::books::Books;
use crate::recording::record;
use crate::state::OfficeState;
use outside_io::{Disk, Moment};
use policy_types::{Command, MOST_COMMANDS, Refusal};
use record_codec::encode;
use versioned_book::KeyPlace;
use watcher_set::{Lack, Watching};

impl<D: Disk, W: Watching> OfficeState<D, W> {
    /// Answers a caller's command. First all memory is taken. The command is accepted only once its record outlives a
    /// crash, and then the watchers are told of it; what is refused, or lacks memory, touches nothing.
    pub fn post(&mut self, caller: u64, command: &Command) -> Answer
        requires turns { turns_of self.old < 2 ^ 62 }
        requires valid { IsValid command.now }
        requires stands { (history : List Entry) × StandsFor self.old history }
        ensures keeps { KeepsOffice self.old self.new result }
        ensures stands { (history : List Entry) → StandsFor self.old history
            → StandsFor self.new (history ++ turn_of caller command.now result ∷ []) }
        ensures crash { (history : List Entry) → StandsFor self.old history → D.honest (disk_of self.new)
            → CrashesIn D.Disk (disk_of self.old) (disk_of self.new) (opening_of self.old) history command.now result }
    {
        let answer = self.decide(command);
        self.turns += 1;
        answer
    }

    // Answers a command, in a turn that isn't counted yet.
    fn decide(&mut self, command: &Command) -> Answer
        requires valid { IsValid command.now }
        requires stands { (history : List Entry) × StandsFor self.old history }
        ensures turns { turns_of self.new ≡ turns_of self.old }
        ensures keeps { KeepsOffice self.old self.new result }
        ensures stands { (history : List Entry) (caller : ℕ) → StandsFor self.old history
            → StandsFor (one_more self.new) (history ++ turn_of caller command.now result ∷ []) }
        ensures crash { (history : List Entry) → StandsFor self.old history → D.honest (disk_of self.new)
            → CrashesIn D.Disk (disk_of self.old) (disk_of self.new) (opening_of self.old) history command.now result }
    {
        let place = self.books.place_of(command);
        if let Err(lack) = take_memory(&mut self.books, place, &mut self.watchers) {
            return Answer::NoMemory(lack);
        }
        self.decide_ready(place, command)
    }

    // The same, once its memory is taken: so no more can be wanting. What the rules accept is recorded; the moment since
    // which it is safe is told; it is kept with the policy that it left; and the watchers are told of it.
    fn decide_ready(&mut self, place: KeyPlace, command: &Command) -> Answer
        requires place { IsPlaceOf self.old.books place command.now }
        requires valid { IsValid command.now }
        requires stands { (history : List Entry) × StandsFor self.old history }
        requires room { CanKeep self.old.books place.key }
        requires ready { W.has_room self.old.watchers }
        ensures ample { result ≢ Answer.NoMemory a_lack }
        ensures turns { turns_of self.new ≡ turns_of self.old }
        ensures keeps { KeepsOffice self.old self.new result }
        ensures stands { (history : List Entry) (caller : ℕ) → StandsFor self.old history
            → StandsFor (one_more self.new) (history ++ turn_of caller command.now result ∷ []) }
        ensures crash { (history : List Entry) → StandsFor self.old history → D.honest (disk_of self.new)
            → CrashesIn D.Disk (disk_of self.old) (disk_of self.new) (opening_of self.old) history command.now result }
    {
        let after = match self.books.judgement(place, command) {
            Ok(after) => after,
            Err(refusal) => return Answer::Refused(refusal),
        };
        if self.books.count() == MOST_COMMANDS {
            return Answer::Refused(Refusal::Full);
        }
        match record(&mut self.journal, &encode(command)) {
            Ok(()) => {
                let moment = Moment::of(self.journal.disk());
                self.outlet.tell(moment);
                self.books.keep(place, command, after);
                let position = self.books.count();
                self.watchers.note(position, command);
                Answer::Accepted(position)
            }
            Err(fault) => Answer::DiskFault(fault.count),
        }
    }
}

// Takes the memory that a posting to the policy with this place may need: that of the books, and that of the watchers.
// The outlet has room for the moment.
fn take_memory<W: Watching>(
    books: &mut Books,
    place: KeyPlace,
    watchers: &mut W,
) -> Result<(), Lack>
    requires place { IsPlaceIn books.old.versions place }
    ensures commands { commands_in books.new ≡ commands_in books.old }
    ensures floor { floor_in books.new ≡ floor_in books.old }
    ensures handed { W.handed watchers.new ≡ W.handed watchers.old }
    ensures told { (before : ℕ) (commands : List ACommand) → W.told watchers.old before commands → W.told watchers.new before commands }
    ensures place { IsPlaceIn books.new.versions place }
    ensures room { OnOk result (CanKeep books.new place.key) }
    ensures ready { OnOk result (W.has_room watchers.new) }
{
    books.reserve(place)?;
    watchers.ready()
}
