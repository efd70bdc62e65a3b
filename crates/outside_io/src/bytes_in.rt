// Input from memory.
ghost use Rattle.std.specs.Prelude.{◌≡◌, ◌≤◌, ◌<◌, ◌↔◌, length, vec_len, min, take, IsTrue};

use crate::{Failed, FaultPlan, Source};

/// Gives the bytes of a list. It fails at the calls whose numbers, counted from 1, it was given.
#[derive(Drop)]
pub struct BytesSource {
    bytes: Vec<u8>,
    taken: usize,
    ended: bool,
    plan: FaultPlan,
    ghost within: { taken ≤ vec_len bytes },
    ghost all_taken: { IsTrue ended → length bytes.items ≤ taken },
}

impl BytesSource {
    ghost use Rattle.outside_io.specs.Plans.{plan_faults, plan_failing, plan_calls};
    ghost use Rattle.std.specs.Prelude.{[]};
    ghost use Rattle.outside_io.specs.Memory.{source_left, source_given, SourceEnded, source_plan};

    pub fn new(bytes: Vec<u8>, failing: Vec<u64>) -> BytesSource
        ensures left { source_left result ≡ bytes.items }
        ensures given { source_given result ≡ [] }
        ensures more { SourceEnded result → ⊥ }
        ensures failing { plan_failing (source_plan result) ≡ failing.items }
        ensures calls { plan_calls (source_plan result) ≡ 0 }
        ensures faults { plan_faults (source_plan result) ≡ 0 }
    {
        BytesSource {
            bytes,
            taken: 0,
            ended: false,
            plan: FaultPlan::new(failing),
        }
    }
}

impl Source for BytesSource {
    ghost use Rattle.std.specs.Prelude.{ℕ, ◌⊎◌, Some, List, [], IfOk, OnOk, OnErr, IsErr};
    ghost use Rattle.std.specs.Io.KnownBytes.{ReadConsumes};
    ghost use Rattle.outside_io.specs.Faults.{HasCause};
    ghost use Rattle.outside_io.specs.Streams.{StillTells, ReadGives, SeesEnd};
    ghost use Rattle.outside_io.specs.Plans.{FailsNext, plan_faults, plan_failing, plan_calls, number_after};
    ghost use Rattle.outside_io.specs.Memory.{source_left, source_given, SourceEnded, source_plan};
    ghost use Rattle.outside_io.specs.StreamLaws.{all_given};

    ghost faults = { λ s. plan_faults (source_plan s) };

    ghost left = { λ s. Some (source_left s) };

    ghost given = { λ s. source_given s };

    ghost ended = { λ s. SourceEnded s };

    ghost nothing_left = { λ s told end same. all_given s.bytes.items told s.taken (s.all_taken end) same };

    fn faults(&self) -> u64 {
        self.plan.faults()
    }

    fn read(&mut self, buf: &mut [u8]) -> Result<usize, Failed>
        ensures cause { HasCause (plan_faults (source_plan self.old))
            (plan_faults (source_plan self.new)) result }
        ensures held { OnOk result (plan_faults (source_plan self.new) ≡ plan_faults (source_plan self.old)) }
        ensures bound { IfOk result (λ n. n ≤ length buf.new) }
        ensures bytes { ReadConsumes (Some (source_left self.old))
            (Some (source_left self.new)) result buf.new }
        ensures tells { StillTells (Some (source_left self.old)) (Some (source_left self.new)) }
        ensures given { ReadGives (source_given self.old) (source_given self.new) result buf.new }
        ensures end { SeesEnd result buf.new → SourceEnded self.new }
        ensures not_before { SourceEnded self.new → SourceEnded self.old ⊎ SeesEnd result buf.new }
        ensures failed { OnErr result (FailsNext (source_plan self.old)) }
        ensures fails { FailsNext (source_plan self.old) → IsErr result }
        ensures failing { plan_failing (source_plan self.new) ≡ plan_failing (source_plan self.old) }
        ensures calls { plan_calls (source_plan self.new) ≡ number_after (plan_calls (source_plan self.old)) }
    {
        if self.plan.fails_next() {
            self.plan.add_fault();
            return Err(Failed);
        }
        let n = copy_front(&self.bytes[self.taken..], buf);
        self.taken += n;
        self.ended |= is_end(n, buf.len());
        Ok(n)
    }
}

// Nothing was given although the buffer isn't empty.
fn is_end(many: usize, room: usize) -> bool
    ensures { IsTrue result ↔ (many ≡ 0) × (0 < room) }
{
    many == 0 && room > 0
}

// Copies as many bytes as there are and fit, and returns how many.
fn copy_front(from: &[u8], to: &mut [u8]) -> usize
    ensures many { result ≡ min (length from.now) (length to.new) }
    ensures front { take result to.new ≡ take result from.now }
{
    let n = from.len().min(to.len());
    to[..n].copy_from_slice(&from[..n]);
    n
}
