// The books: each policy's versions, and the balances that the accepted commands leave.
ghost use Rattle.std.specs.Prelude.{◌≡◌, ◌+◌, ◌<◌, ◌≤◌, ◌++◌, [], ◌∷◌, Ok, Some, None, false, OnOk, length, take, slice_get};
ghost use Rattle.office_state.specs.Names.{most_commands, IsValid, id_of, is_upgrade, Upgrade, ledger_of, book, judge_of, judged_after, policy_of, balances, next, IsPlaceIn};
ghost use Rattle.office_state.specs.inside.Keeping.{Keeps, Keeps-prop};

use crate::accepted_list::AcceptedList;
use money_ledgers::Ledger;
use policy_machine::{judge, upgrade_place};
use policy_types::{Command, NoMemory, Policy, Refusal};
use std::alloc::Global;
use versioned_book::{KeyPlace, VersionedBook};

/// What is kept of the accepted commands: how many there are, the place of the upgrade, each policy's versions by the
/// numbers of the commands that made them, from the floor on, and the ledger.
#[derive(Drop)]
pub(crate) struct Books {
    pub(crate) versions: VersionedBook<Policy>,
    pub(crate) count: u32,
    // The place of the upgrade, or 0.
    pub(crate) upgrade: u32,
    pub(crate) ledger: Ledger,
    // The commands themselves, for contracts alone.
    pub(crate) accepted: AcceptedList,
    ghost kept: { Keeps versions count upgrade ledger accepted.commands } by { Keeps-prop versions count upgrade ledger accepted.commands },
}

impl Books {
    ghost use Rattle.office_state.specs.inside.Books.{CanKeep, IsPlaceOf, commands_in, floor_in, kept_in};

    /// The books of no command. They take no memory yet.
    pub(crate) fn new(alloc: Global) -> Books
        ensures empty { commands_in result ≡ [] }
        ensures floor { floor_in result ≡ 0 }
    {
        Books {
            versions: VersionedBook::new(alloc),
            count: 0,
            upgrade: 0,
            ledger: Ledger::new(),
            accepted: AcceptedList::new(),
        }
    }

    /// Takes the memory for the policies of so many further commands at once, or none.
    pub(crate) fn expect(&mut self, commands: u32)
        requires few { commands ≤ most_commands }
        ensures commands { commands_in self.new ≡ commands_in self.old }
        ensures floor { floor_in self.new ≡ floor_in self.old }
    {
        self.versions.expect(commands);
    }

    /// Where the versions of a command's policy stand, or that there are none. It is looked up once for what follows.
    pub(crate) fn place_of(&self, command: &Command) -> KeyPlace
        ensures { IsPlaceOf self.now result command.now }
    {
        self.versions.place_of(command.id())
    }

    /// Makes room for one command more of the policy with this place, which it keeps.
    pub(crate) fn reserve(&mut self, place: KeyPlace) -> Result<(), NoMemory>
        requires place { IsPlaceIn self.old.versions place }
        ensures commands { commands_in self.new ≡ commands_in self.old }
        ensures floor { floor_in self.new ≡ floor_in self.old }
        ensures place { IsPlaceIn self.new.versions place }
        ensures done { OnOk result (CanKeep self.new place.key) }
    {
        self.versions.reserve_at(place)?;
        Ok(())
    }

    /// What the rules make of a command, whose policy has this place: the policy that it leaves, or none where it is an
    /// upgrade.
    pub(crate) fn judgement(
        &self,
        place: KeyPlace,
        command: &Command,
    ) -> Result<Option<Policy>, Refusal>
        requires place { IsPlaceOf self.now place command.now }
        requires valid { IsValid command.now }
        ensures { result ≡ judged_after (commands_in self.now) command.now }
    {
        let policy = self.versions.newest_at(place);
        judge(self.upgrade, policy.as_ref(), command)
    }

    /// Keeps an accepted command, and the policy that it left, at its place. There is room for it.
    pub(crate) fn keep(&mut self, place: KeyPlace, command: &Command, after: Option<Policy>)
        requires place { IsPlaceOf self.old place command.now }
        requires valid { IsValid command.now }
        requires accepted { judged_after (commands_in self.old) command.now ≡ Ok after }
        requires few { length (commands_in self.old) < most_commands }
        requires room { CanKeep self.old place.key }
        ensures commands { commands_in self.new ≡ commands_in self.old ++ command.now ∷ [] }
        ensures floor { floor_in self.new ≡ floor_in self.old }
    {
        match after {
            Some(policy) => self.keep_policy(place, command, policy),
            None => self.keep_upgrade(command),
        }
    }

    // Keeps a command as what it made of its policy.
    fn keep_policy(&mut self, place: KeyPlace, command: &Command, policy: Policy)
        requires place { IsPlaceOf self.old place command.now }
        requires valid { IsValid command.now }
        requires accepted { next (policy_of (commands_in self.old) (id_of command.now)) command.now ≡ Ok policy }
        requires judged { judge_of (commands_in self.old) command.now ≡ None }
        requires named { is_upgrade command.now ≡ false }
        requires few { length (commands_in self.old) < most_commands }
        requires room { CanKeep self.old place.key }
        ensures commands { commands_in self.new ≡ commands_in self.old ++ command.now ∷ [] }
        ensures floor { floor_in self.new ≡ floor_in self.old }
    {
        self.ledger.post(command, &policy);
        self.count += 1;
        self.versions.set_at(place, self.count, policy);
        self.accepted = self.accepted.with(command);
    }

    // Keeps an upgrade, which leaves policies and accounts as they are.
    fn keep_upgrade(&mut self, command: &Command)
        requires valid { IsValid command.now }
        requires judged { judge_of (commands_in self.old) command.now ≡ None }
        requires upgrade { command.now ≡ Upgrade }
        requires few { length (commands_in self.old) < most_commands }
        ensures commands { commands_in self.new ≡ commands_in self.old ++ command.now ∷ [] }
        ensures floor { floor_in self.new ≡ floor_in self.old }
    {
        self.upgrade = upgrade_place(self.upgrade, self.count, command);
        self.count += 1;
        self.versions.pass(self.count);
        self.accepted = self.accepted.with(command);
    }

    /// How many commands there are.
    pub(crate) fn count(&self) -> u32
        ensures { result ≡ length (commands_in self.now) }
    {
        self.count
    }

    /// The balances.
    pub(crate) fn ledger(&self) -> Ledger
        ensures { balances result ≡ ledger_of (commands_in self.now) }
    {
        self.ledger
    }

    /// The position before which nothing need be kept.
    pub(crate) fn floor(&self) -> u32
        ensures { result ≡ floor_in self.now }
    {
        self.versions.floor()
    }

    /// How many versions are kept.
    pub(crate) fn kept(&self) -> u32
        ensures { result ≡ kept_in self.now }
    {
        self.versions.kept()
    }

    /// How many policies there are after the first `p` commands.
    pub(crate) fn policies(&self, p: u32) -> u32
        ensures { result ≡ length (book (take p (commands_in self.now))) }
    {
        self.versions.count_at(p)
    }

    /// Drops the versions that no position from the floor on needs.
    pub(crate) fn trim(&mut self, floor: u32)
        requires rising { floor_in self.old ≤ floor }
        requires reached { floor ≤ length (commands_in self.old) }
        ensures commands { commands_in self.new ≡ commands_in self.old }
        ensures floor { floor_in self.new ≡ floor }
    {
        self.versions.trim(floor);
    }
}
