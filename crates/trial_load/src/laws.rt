// A law that the definitions satisfy, as a function that does nothing.
ghost use Rattle.std.specs.Prelude.{◌≤◌, ℕ};
ghost use Rattle.command_csv.specs.Reads.{Reads};
ghost use Rattle.trial_load.specs.Names.{generated_lanes, generated_text};

/// The text that `generate` writes is a script, and its lanes are those that `load` runs.
pub fn generated_text_reads()
    ensures { (seed lanes count : ℕ) → 1 ≤ lanes → lanes ≤ 8 → count ≤ 100000
        → Reads (generated_text seed lanes count) (generated_lanes seed lanes count) }
{}
