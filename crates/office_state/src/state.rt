// The office.
ghost use Rattle.std.specs.Prelude.{◌≡◌, length};
ghost use Rattle.posting_journal.specs.States.{count_of};

use crate::books::Books;
use crate::held::Pins;
use moment_ring::MomentOutlet;
use outside_io::Disk;
use posting_journal::Journal;
use std::snapshot::Snapshot;
use watcher_set::Watching;

/// An office on its disk: each accepted command stands in its journal, and what it made of its policy in memory.
#[derive(Drop)]
pub struct OfficeState<D: Disk, W: Watching> {
    pub(crate) journal: Journal<D>,
    pub(crate) books: Books,
    // Who is told of each accepted command.
    pub(crate) watchers: W,
    // How many turns it answered.
    pub(crate) turns: u64,
    pub(crate) pins: Pins,
    // Where it tells since which moment each accepted command is safe.
    pub(crate) outlet: MomentOutlet<D>,
    // What it was opened on, for contracts alone: the disk as it was handed in, and the books of its journal.
    pub(crate) begun: Snapshot<D>,
    pub(crate) recovered: Snapshot<Books>,
    ghost counted: { count_of journal ≡ length books.accepted.commands },
}
