// An office on a disk in memory, the postings that it is given, and what it replies and shows.
ghost use Rattle.std.specs.Prelude.{ℕ, []};

use memory_disk::MemoryDisk;
use moment_ring::MomentOutlet;
use office_state::{Answer, OfficeState, StartCause};
use policy_types::{Command, Plan, Policy, Refusal, Status};
use std::alloc::{AllocError, Global};
use std::marker::Model;
use watcher_set::{NoWatchers, Watching};

/// An office that stands for some history of its turns.
#[derive(Drop)]
pub(crate) struct Desk<W: Watching> {
    pub(crate) office: OfficeState<MemoryDisk, W>,
}

impl<W: Watching> Model for Desk<W> {
    ghost use Rattle.std.specs.Prelude.{List};
    ghost use Rattle.policy_types.specs.declared.entry.Entry.{Entry};
    ghost use Rattle.office_state.specs.Standing.{StandsFor};

    ghost Value = { Unit {0} };

    ghost view = { λ _. tt };

    ghost invariant = { λ desk. (history : List Entry) × StandsFor desk.office history };
}

// An office is asked only while it has answered fewer turns than this.
pub(crate) const MOST_TURNS: u64 = 1 << 62;

// The policy, as commands have left it.
pub(crate) fn policy(
    id: u32,
    issued: i32,
    last: i32,
    paid: u8,
    status: Status,
    outstanding: u64,
) -> Policy {
    Policy {
        id,
        plan: Plan::Endowment,
        age: 0,
        years: 3,
        amount: 100_000,
        premium: 40_000,
        issued,
        last,
        paid,
        status,
        outstanding,
    }
}

// A command that is posted, and its reply.
#[derive(Clone, Copy)]
pub(crate) struct Posting {
    pub(crate) command: Command,
    pub(crate) answer: Answer,
}

pub(crate) fn accepted(command: Command, position: u32) -> Posting {
    Posting {
        command,
        answer: Answer::Accepted(position),
    }
}

pub(crate) fn refused(command: Command, refusal: Refusal) -> Posting {
    Posting {
        command,
        answer: Answer::Refused(refusal),
    }
}

// An office on these bytes, with watchers that have noted nothing.
pub(crate) fn watched_on<W: Watching>(
    alloc: Global,
    bytes: &[u8],
    failing: &[u64],
    watchers: W,
) -> Result<Result<Desk<W>, StartCause>, AllocError>
    requires { (before : ℕ) → W.told watchers before [] }
{
    let disk = MemoryDisk::new(
        alloc,
        Vec::from_slice(alloc, bytes)?,
        Vec::from_slice(alloc, failing)?,
    );
    match OfficeState::open(alloc, disk, watchers, MomentOutlet::nowhere()) {
        Ok(office) => Ok(Ok(Desk { office })),
        Err(fault) => Ok(Err(fault.cause)),
    }
}

pub(crate) fn office_on(
    alloc: Global,
    bytes: &[u8],
    failing: &[u64],
) -> Result<Result<Desk<NoWatchers>, StartCause>, AllocError> {
    watched_on(alloc, bytes, failing, NoWatchers)
}

// The office's reply to a command that may be posted.
pub(crate) fn posted<W: Watching>(desk: &mut Desk<W>, command: &Command) -> Option<Answer> {
    if MOST_TURNS <= desk.office.turns() || !command.is_valid() {
        return None;
    }
    Some(desk.office.post(1, command))
}

// Whether the office replies so to a posting.
pub(crate) fn answers_one<W: Watching>(desk: &mut Desk<W>, posting: &Posting) -> bool {
    posted(desk, &posting.command) == Some(posting.answer)
}

// Whether a posting of the command is refused memory.
pub(crate) fn lacks_memory<W: Watching>(desk: &mut Desk<W>, command: &Command) -> bool {
    matches!(posted(desk, command), Some(Answer::NoMemory(_)))
}

// Whether it replies so to each, one after the other.
pub(crate) fn answers<W: Watching>(desk: &mut Desk<W>, postings: &[Posting]) -> bool {
    for posting in postings {
        if !answers_one(desk, posting) {
            return false;
        }
    }
    true
}

// Whether exactly these policies were there after so many commands, and are kept.
pub(crate) fn shows<W: Watching>(desk: &Desk<W>, position: u32, policies: &[Policy]) -> bool {
    if desk.office.count() < position || position < desk.office.floor() {
        return false;
    }
    if desk.office.policies(position) as usize != policies.len() {
        return false;
    }
    for index in 0..desk.office.policies(position) {
        if desk.office.policy(index, position) != policies[index as usize] {
            return false;
        }
    }
    true
}
