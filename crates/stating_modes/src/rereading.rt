// The records of a journal are read again for one policy.
ghost use Rattle.std.specs.Prelude.{◌≡◌, ◌≤◌, List, length, IfOk, IfErr};
ghost use Rattle.policy_types.specs.declared.command.Command.{Command as ACommand};
ghost use Rattle.stating_modes.specs.inside.Rereading.{CanBeNext, HasRead, HasNotRead, IsAccount, IsReadFrom, IsStoppedFrom};

use journal_replay::{Keeper, Unkept, replay_all};
use memory_requests::push;
use office_state::{StartFault, cause_of, cause_of_replay};
use outside_io::Disk;
use policy_machine::decide;
use policy_types::{Command, Policy};
use posting_journal::Journal;
use std::alloc::Global;

/// The accepted commands with a policy's number, each with its own number among all of them, and the policy as they
/// left it.
#[derive(Drop)]
pub struct Account {
    pub id: u32,
    pub entries: Vec<(u32, Command)>,
    pub policy: Option<Policy>,
}

/// An account, and the disk on which it was read.
#[derive(Drop)]
pub struct ReadAgain<D> {
    pub account: Account,
    pub disk: D,
}

impl Keeper for Account {
    ghost stands = { λ account commands. IsAccount account commands };

    ghost takes = { λ account n. (1 ≤ account.id)
        × ((commands : List ACommand) × IsAccount account commands × (length commands ≡ n)) };

    ghost follows = { CanBeNext };

    ghost mark = { λ account. account.id };

    // Adds a record's command if it names the policy.
    fn add(&mut self, n: u32, command: &Command) -> Result<(), Unkept> {
        if command.id() != self.id {
            return Ok(());
        }
        let Ok(policy) = decide(self.policy.as_ref(), command) else {
            return Err(Unkept::Refused);
        };
        match push(&mut self.entries, (n + 1, *command)) {
            Ok(()) => (),
            Err(lack) => return Err(Unkept::NoMemory(lack)),
        }
        self.policy = Some(policy);
        Ok(())
    }
}

/// The account of a policy, from the journal on the disk. If the file is a journal, nothing is written.
pub fn read_again<D: Disk>(alloc: Global, id: u32, disk: D) -> Result<ReadAgain<D>, StartFault<D>>
    requires { 1 ≤ id }
    ensures read { IfOk result (λ read. HasRead D.Disk disk read.disk read.account id) }
    ensures stopped { IfErr result (λ fault. HasNotRead D.Disk disk fault.disk fault.cause) }
{
    match Journal::start(disk) {
        Ok(journal) => read_journal(alloc, id, journal),
        Err(fault) => Err(StartFault {
            cause: cause_of(fault.cause),
            disk: fault.disk,
        }),
    }
}

// The account of a policy, from a journal that was opened.
#[tactic(auto, using(crate::proofs::ReadingSteps::account_none, crate::proofs::ReadingSteps::all_read, crate::proofs::ReadingSteps::reading_stopped))]
fn read_journal<D: Disk>(
    alloc: Global,
    id: u32,
    journal: Journal<D>,
) -> Result<ReadAgain<D>, StartFault<D>>
    requires { 1 ≤ id }
    ensures read { IfOk result (λ read. IsReadFrom journal read.disk read.account id) }
    ensures stopped { IfErr result (λ fault. IsStoppedFrom journal fault.disk fault.cause) }
{
    let mut journal = journal;
    let mut account = Account {
        id,
        entries: Vec::new(alloc),
        policy: None,
    };
    match replay_all(&mut journal, &mut account) {
        Ok(()) => Ok(ReadAgain {
            account,
            disk: journal.release(),
        }),
        Err(fault) => Err(StartFault {
            cause: cause_of_replay(fault),
            disk: journal.release(),
        }),
    }
}
