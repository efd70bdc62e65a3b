//! Worked cases over an empty file and over one that is no journal, by one disk and by two, each a theorem over the
//! definitions alone.

ghost use Rattle.stating_modes.specs.Worked.{FourBalances, KeepsAnEmptyFile, KnowsNobody, RefusesHelloByTwo, SavesNothing, StatesAnEmptyFile, TellsNoLie};

use outside_io::Disk;

/// Over any disk, what `state` and `state 7` write for an empty file.
pub fn an_empty_file_is_stated<D: Disk>()
    ensures books { StatesAnEmptyFile D.Disk }
    ensures nobody { KnowsNobody D.Disk }
{}

/// The sums of two sets of balances.
pub fn balances_are_added()
    ensures { FourBalances }
{}

/// Over any disks, what `state` and `checkpoint` write for an empty file; and that an empty second file says nothing
/// false.
pub fn an_empty_file_is_kept<D: Disk, E: Disk>()
    ensures texts { KeepsAnEmptyFile D.Disk E.Disk }
    ensures truth { TellsNoLie }
    ensures saved { SavesNothing D.Disk E.Disk }
{}

/// Over any disks, a file of five bytes that are no journal.
pub fn no_journal_is_stated<D: Disk, E: Disk>()
    ensures { RefusesHelloByTwo D.Disk E.Disk }
{}
