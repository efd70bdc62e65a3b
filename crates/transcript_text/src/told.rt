// How a run ends, by the answers of its lanes.
ghost use Rattle.std.specs.Prelude.{◌≡◌, if◌then◌else◌};
ghost use Rattle.watcher_set.specs.Evidence.{a_lack};
ghost use Rattle.lane_runner.specs.Tallies.{any_faulted, any_lacked};
ghost use Rattle.program_endings.specs.declared.ending.Ending.TheVariants.{DiskFault, Done, NoMemory as NoRoom};

use lane_runner::TranscriptLines;
use program_endings::Ending;

/// The ending of a run whose transcript is written.
pub fn ending_of(lines: &TranscriptLines) -> Ending
    ensures { result ≡ (if any_faulted lines.now then DiskFault
        else if any_lacked lines.now then (NoRoom a_lack) else Done) }
{
    if lines.any_faulted() {
        return Ending::DiskFault;
    }
    match lines.lack() {
        Some(lack) => Ending::NoMemory(lack),
        None => Ending::Done,
    }
}
