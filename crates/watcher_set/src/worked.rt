//! Worked cases of what watchers note, each a theorem over the definitions alone.

ghost use Rattle.watcher_set.specs.Worked.{NotedToTheThird, SixteenAuditors, ThreeReports};

/// Watchers of four commands: one is done at the third, one is never done, and one isn't done yet.
pub fn auditors_of_four_commands()
    ensures noted { NotedToTheThird }
    ensures reports { ThreeReports }
    ensures most { SixteenAuditors }
{}
