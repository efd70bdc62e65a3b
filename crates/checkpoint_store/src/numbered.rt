// The books by number, while records are decided anew.
ghost use Rattle.std.specs.Prelude.{◌≡◌, ◌<◌, [], nat_eq, false, IfErr, IfOk, IfSome, OnOk};
ghost use Rattle.memory_requests.specs.Evidence.{a_refusal};
ghost use Rattle.checkpoint_store.specs.Names.{lookup, most_commands, IsValid, id_of, is_upgrade, judged, IsSound, index_of};
ghost use Rattle.journal_replay.specs.declared.keeper.Unkept.TheVariants.{NoMemory};
ghost use Rattle.checkpoint_store.specs.inside.Numbered.{AreBooksOf, AreSoundBooks, HasSetPolicy};

use indexmap::IndexMap;
use journal_replay::Unkept;
use memory_requests::insert;
use money_ledgers::Ledger;
use policy_machine::judge;
use policy_types::{Command, Policy, Refusal};
use std::alloc::Global;
use versioned_book::KeyHashing;

/// The policies by number, in order of issue, and what else a snapshot has.
#[derive(Drop)]
pub(crate) struct NumberedBooks {
    pub(crate) policies: IndexMap<u32, Policy, KeyHashing>,
    pub(crate) position: u32,
    // The place of the upgrade, or 0.
    pub(crate) upgrade: u32,
    pub(crate) ledger: Ledger,
}

impl NumberedBooks {
    /// The books of no command. They take no memory yet.
    pub(crate) fn new(alloc: Global) -> NumberedBooks
        ensures sound { AreSoundBooks result }
        ensures none { AreBooksOf [] result }
    {
        NumberedBooks {
            policies: IndexMap::with_hasher(alloc, KeyHashing),
            position: 0,
            upgrade: 0,
            ledger: Ledger::new(),
        }
    }

    /// The index of the policy that a command names, where there is one, and what the rules make of the command: the policy
    /// that it leaves, or none where it is an upgrade.
    pub(crate) fn judgement(
        &self,
        command: &Command,
    ) -> (Option<usize>, Result<Option<Policy>, Refusal>)
        requires valid { IsValid command.now }
        requires sound { AreSoundBooks self.now }
        ensures index { result.0 ≡ index_of nat_eq self.now.policies (id_of command.now) }
        ensures sound { IfOk result.1 (λ left. IfSome left IsSound) }
        ensures judged { result.1 ≡ judged self.now.upgrade (lookup (nat_eq (id_of command.now)) self.now.policies.entries) command.now }
    {
        match self.policies.get_full(&command.id()) {
            Some((index, _, policy)) => (Some(index), judge(self.upgrade, Some(policy), command)),
            None => (None, judge(self.upgrade, None, command)),
        }
    }

    /// Sets the policy that an accepted command left, at its index.
    pub(crate) fn set(
        &mut self,
        index: Option<usize>,
        command: &Command,
        policy: Policy,
    ) -> Result<(), Unkept>
        requires index { index ≡ index_of nat_eq self.old.policies (id_of command.now) }
        requires valid { IsValid command.now }
        requires sound { AreSoundBooks self.old }
        requires few { self.old.position < most_commands }
        requires policy { IsSound policy }
        requires named { is_upgrade command.now ≡ false }
        ensures taken { OnOk result (HasSetPolicy self.old self.new command.now policy) }
        ensures memory { IfErr result (λ why. why ≡ NoMemory a_refusal) }
    {
        self.ledger.post(command, &policy);
        self.position += 1;
        match index {
            Some(index) => {
                let (_id, before) = self.policies.pair_mut(index);
                *before = policy;
                Ok(())
            }
            None => match insert(&mut self.policies, command.id(), policy) {
                Ok(_) => Ok(()),
                Err(lack) => Err(Unkept::NoMemory(lack)),
            },
        }
    }
}
