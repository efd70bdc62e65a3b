// Faults by plan, for devices in memory.
ghost use Rattle.std.specs.Prelude.{◌≡◌, ◌≤◌, ◌↔◌, IsTrue};
ghost use Rattle.outside_io.specs.Plans.{FailsNext, number_after, plan_faults, plan_calls, plan_failing};

/// Which calls of a device in memory are to fail, by their numbers counted from 1, and how many calls and faults
/// there were. Both counts stand still at their type's end.
#[derive(Drop)]
pub struct FaultPlan {
    failing: Vec<u64>,
    calls: u64,
    faults: u64,
}

impl FaultPlan {
    /// A plan before the first call.
    pub fn new(failing: Vec<u64>) -> FaultPlan
        ensures failing { plan_failing result ≡ failing.items }
        ensures calls { plan_calls result ≡ 0 }
        ensures faults { plan_faults result ≡ 0 }
    {
        FaultPlan {
            failing,
            calls: 0,
            faults: 0,
        }
    }

    /// The number of faults so far.
    pub fn faults(&self) -> u64
        ensures { result ≡ plan_faults self.now }
    {
        self.faults
    }

    /// Counts a call, and returns whether it is to fail.
    pub fn fails_next(&mut self) -> bool
        ensures fails { IsTrue result ↔ FailsNext self.old }
        ensures failing { plan_failing self.new ≡ plan_failing self.old }
        ensures calls { plan_calls self.new ≡ number_after (plan_calls self.old) }
        ensures faults { plan_faults self.new ≡ plan_faults self.old }
    {
        self.calls = self.calls.saturating_add(1);
        self.failing.contains(&self.calls)
    }

    /// Counts a fault.
    pub fn add_fault(&mut self)
        ensures faults { plan_faults self.new ≡ number_after (plan_faults self.old) }
        ensures later { plan_faults self.old ≤ plan_faults self.new }
        ensures failing { plan_failing self.new ≡ plan_failing self.old }
        ensures calls { plan_calls self.new ≡ plan_calls self.old }
    {
        self.faults = self.faults.saturating_add(1);
    }
}
