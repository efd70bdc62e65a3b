//! Worked arguments, each a theorem over the definitions alone.

ghost use Rattle.life_args.specs.Worked.{CheckpointWords, LoadWords, MeasureNearWords, MeasureWords, NearWords, ProjectNearWords, ProjectWords, RunWords, StateWords, ValueWords};

/// The arguments of each command, and arguments that are nearly one.
pub fn words_by_hand()
    ensures run { RunWords }
    ensures value { ValueWords }
    ensures measure { MeasureWords }
    ensures measure_near { MeasureNearWords }
    ensures project { ProjectWords }
    ensures project_near { ProjectNearWords }
    ensures state { StateWords }
    ensures checkpoint { CheckpointWords }
    ensures load { LoadWords }
    ensures near { NearWords }
{}
