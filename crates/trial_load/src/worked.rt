//! Worked lines of `load`, each a theorem over the definitions alone.

ghost use Rattle.trial_load.specs.Worked.{DayOfLoads, LinesOfLoads, LinesWritten, RefusedOfFive};

/// The line of a load, the day of its valuation, and what counts as refused.
pub fn loads_by_hand()
    ensures lines { LinesOfLoads }
    ensures day { DayOfLoads }
    ensures refused { RefusedOfFive }
    ensures written { LinesWritten }
{}
