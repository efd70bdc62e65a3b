ghost use Rattle.std.specs.Prelude.{◌≡◌, ◌<◌, ◌≤◌, [], ◌∷◌, ◌++◌, length};
ghost use Rattle.watcher_set.specs.Limits.{most_watchers};

use policy_types::Report;
use std::marker::Model;

/// The most watchers that a set may have.
pub const MOST_WATCHERS: usize = 16;

/// What the watchers report at the end: at most 16 reports, which contracts see as a list.
#[derive(Drop)]
pub struct Reports {
    items: [Report; MOST_WATCHERS],
    count: usize,
}

impl Model for Reports {
    ghost use Rattle.std.specs.Prelude.{◌≤◌, List, take};
    ghost use Rattle.policy_types.specs.declared.watcher.Report.{Report};
    ghost use Rattle.watcher_set.specs.Limits.{most_watchers};

    ghost Value = { List Report };

    ghost view = { λ reports. take reports.count reports.items };

    ghost invariant = { λ reports. reports.count ≤ most_watchers };
}

impl Reports {
    pub(crate) fn none() -> Reports
        ensures { result ≡ [] }
    {
        Reports {
            items: [Report { seen: 0, tally: 0 }; MOST_WATCHERS],
            count: 0,
        }
    }

    pub(crate) fn push(&mut self, report: Report)
        requires { length self.old < most_watchers }
        ensures { self.new ≡ self.old ++ report ∷ [] }
    {
        self.items[self.count] = report;
        self.count += 1;
    }

    /// The reports, in order.
    pub fn as_slice(&self) -> &[Report]
        ensures value { result.now ≡ self.now }
        ensures most { length result.now ≤ most_watchers }
    {
        &self.items[..self.count]
    }
}
