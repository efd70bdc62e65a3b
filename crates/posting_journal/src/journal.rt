// The journal.
ghost use Rattle.std.specs.Prelude.{◌<◌, ◌≤◌, length};
ghost use Rattle.policy_types.specs.Limits.{most_commands};
ghost use Rattle.posting_journal.specs.Layout.{gate_place};

use outside_io::Disk;

/// A journal on its disk. It is clean but from a fault in the write of a gate to the next repair.
#[derive(Drop)]
pub struct Journal<D: Disk> {
    pub(crate) disk: D,
    pub(crate) count: u32,
    pub(crate) clean: bool,
    ghost few: { count ≤ most_commands },
    ghost within: { D.honest disk → gate_place count < length (D.reads disk) },
}
