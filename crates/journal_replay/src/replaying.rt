// The records of a journal are replayed. They are read in pieces of several records.
ghost use Rattle.std.specs.Prelude.{◌≡◌, ℕ, ◌+◌, ◌-◌, ◌<◌, ◌≤◌, List, [], length, MatchResult, OnOk};
ghost use Rattle.policy_types.specs.declared.command.Command.{Command as ACommand};
ghost use Rattle.posting_journal.specs.Pieces.{IsPartOf};
ghost use Rattle.posting_journal.specs.States.{count_of, disk_of};
ghost use Rattle.journal_replay.specs.Keeping.{AreKept};
ghost use Rattle.journal_replay.specs.Replays.{HasReplayCause, Replays, StaysAs, Stops};

use crate::keeper::{Keeper, Unkept};
use outside_io::{Disk, Steps};
use policy_types::NoMemory;
use posting_journal::{Journal, Stretch};
use record_codec::decode;
use std::marker::Brand;
use std::sync::ledger::{Blank, Ledger};

/// Why not all records of a journal were replayed. Either its disk failed, and this is the disk's count of faults,
/// which rose; or record `n`, counted from 0, is the first that spells no command which can follow; or each record up
/// to some one spells such a command, and memory for that one was refused.
#[derive(Drop)]
pub enum ReplayFault {
    DiskFault(u64),
    BadRecord(u32),
    NoMemory(NoMemory),
}

/// Hands the keeper each record's command, from record `from` on, in order. Each record that is read counts as one
/// step. Nothing is written.
pub fn replay<D: Disk, K: Keeper, L: Ledger>(
    journal: &mut Journal<D>,
    from: u32,
    keeper: &mut K,
    steps: &mut Steps<L>,
) -> Result<(), ReplayFault>
    requires within { from ≤ count_of journal.old }
    requires takes { K.takes keeper.old from }
    ensures stays { StaysAs journal.old journal.new }
    ensures cause { HasReplayCause journal.old (disk_of journal.new) result }
    ensures mark { K.mark keeper.new ≡ K.mark keeper.old }
    ensures takes { OnOk result (K.takes keeper.new (count_of journal.old)) }
    ensures replayed { (commands : List ACommand) → K.stands keeper.old commands → length commands ≡ from → MatchResult result
        (λ u. Replays (K.stands keeper.new) journal.old (disk_of journal.new) (count_of journal.old) commands)
        (λ fault. Stops (AreKept K.stands) K.follows journal.old (disk_of journal.new) commands fault) }
    ensures few { OnOk result (steps.new ≡ steps.old + (count_of journal.old - from)) }
{
    let mut piece = Stretch::new();
    for n in from..journal.count() {
        replay_record(journal, n, &mut piece, keeper, steps)?;
    }
    Ok(())
}

// Hands the keeper one record's command.
fn replay_record<D: Disk, K: Keeper, L: Ledger>(
    journal: &mut Journal<D>,
    n: u32,
    piece: &mut Stretch,
    keeper: &mut K,
    steps: &mut Steps<L>,
) -> Result<(), ReplayFault>
    requires within { n < count_of journal.old }
    requires takes { K.takes keeper.old n }
    requires part { D.honest (disk_of journal.old) → IsPartOf piece.old (D.reads (disk_of journal.old)) }
    ensures stays { StaysAs journal.old journal.new }
    ensures cause { HasReplayCause journal.old (disk_of journal.new) result }
    ensures mark { K.mark keeper.new ≡ K.mark keeper.old }
    ensures takes { OnOk result (K.takes keeper.new (n + 1)) }
    ensures replayed { (commands : List ACommand) → K.stands keeper.old commands → length commands ≡ n → MatchResult result
        (λ u. Replays (K.stands keeper.new) journal.old (disk_of journal.new) (n + 1) commands)
        (λ fault. Stops (AreKept K.stands) K.follows journal.old (disk_of journal.new) commands fault) }
    ensures step { steps.new ≡ steps.old + 1 }
    ensures part { D.honest (disk_of journal.new) → IsPartOf piece.new (D.reads (disk_of journal.new)) }
{
    steps.tick();
    let body = match journal.body_from(n, piece) {
        Ok(body) => body,
        Err(fault) => return Err(ReplayFault::DiskFault(fault.count)),
    };
    let Some(command) = decode(&body) else {
        return Err(ReplayFault::BadRecord(n));
    };
    match keeper.add(n, &command) {
        Ok(()) => Ok(()),
        Err(Unkept::Refused) => Err(ReplayFault::BadRecord(n)),
        Err(Unkept::NoMemory(lack)) => Err(ReplayFault::NoMemory(lack)),
    }
}

/// Hands the keeper each record's command, from the first on.
pub fn replay_all<D: Disk, K: Keeper>(
    journal: &mut Journal<D>,
    keeper: &mut K,
) -> Result<(), ReplayFault>
    requires takes { K.takes keeper.old 0 }
    ensures stays { StaysAs journal.old journal.new }
    ensures cause { HasReplayCause journal.old (disk_of journal.new) result }
    ensures mark { K.mark keeper.new ≡ K.mark keeper.old }
    ensures takes { OnOk result (K.takes keeper.new (count_of journal.old)) }
    ensures replayed { K.stands keeper.old [] → MatchResult result
        (λ u. Replays (K.stands keeper.new) journal.old (disk_of journal.new) (count_of journal.old) [])
        (λ fault. Stops (AreKept K.stands) K.follows journal.old (disk_of journal.new) [] fault) }
{
    replay_by::<D, K, Brand>(journal, keeper, Blank::new(1))
}

// The same, with a ledger for the steps, which the blank becomes.
fn replay_by<D: Disk, K: Keeper, L: Ledger>(
    journal: &mut Journal<D>,
    keeper: &mut K,
    blank: Blank,
) -> Result<(), ReplayFault>
    requires name { blank.name ≡ L.name }
    requires parts { blank.parts ≡ L.parts }
    requires some { 0 < L.parts }
    requires takes { K.takes keeper.old 0 }
    ensures stays { StaysAs journal.old journal.new }
    ensures cause { HasReplayCause journal.old (disk_of journal.new) result }
    ensures mark { K.mark keeper.new ≡ K.mark keeper.old }
    ensures takes { OnOk result (K.takes keeper.new (count_of journal.old)) }
    ensures replayed { K.stands keeper.old [] → MatchResult result
        (λ u. Replays (K.stands keeper.new) journal.old (disk_of journal.new) (count_of journal.old) [])
        (λ fault. Stops (AreKept K.stands) K.follows journal.old (disk_of journal.new) [] fault) }
{
    let mut steps: Steps<L> = Steps::open(blank);
    replay(journal, 0, keeper, &mut steps)
}
