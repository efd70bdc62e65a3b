//! Worked histories of reads past the end of a batch.

ghost use Rattle.policy_machine.specs.Worked.Reads.{ReadsOf257};

/// A pin of 257 policies is read as 256 and one.
pub fn reads_of_257()
    ensures { ReadsOf257 }
{}
