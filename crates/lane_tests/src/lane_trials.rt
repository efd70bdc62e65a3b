// Lanes that are run on an office in memory.
ghost use Rattle.std.specs.Prelude.{◌≡◌, ℕ, ◌≤◌, [], ◌∷◌, All, IsTrue, length, map};
ghost use Rattle.std.specs.List.{AllByRecursion, filter};
ghost use Rattle.policy_types.specs.Lanes.{AreRising};
ghost use Rattle.policy_types.specs.Valid.{IsCommandDay};
ghost use Rattle.rtrb.specs.Ring.{received};
ghost use Rattle.lane_runner.specs.Lanes.{AreRightLanes, IsRightLane, IsRightLine, is_value};
ghost use Rattle.policy_types.specs.Lanes.{lines_in};

use crate::line_words::{LineWords, Written, count_accepted, read_lines};
use crate::offices::{flat_basis, issue_all};
use basis_book::Basis;
use lane_runner::{TranscriptLines, run_lanes};
use memory_disk::MemoryDisk;
use moment_ring::{MomentInlet, moment_ring};
use outside_io::{BytesSink, Disk, Gate};
use policy_types::{Lane, Line};
use shared_office::{Office, OfficePass, close, start_telling};
use std::alloc::Global;
use std::sync::Wait;
use std::test::Fail;
use std::thread::Threads;
use watcher_set::{NoWatchers, Reports, Watching};

// Whether these lanes may be run.
fn are_right(lanes: &[Lane]) -> bool
    ensures { IsTrue result → AreRightLanes lanes.now }
{
    lanes.len() <= 8 && follow(0, 1 << 24, 16, lanes)
}

// Whether these lanes have numbers that rise above this one, and valid lines, at most so many, and at most so many
// valuations.
fn follow(number: u8, lines: usize, values: usize, lanes: &[Lane]) -> bool
    ensures rising { IsTrue result → AreRising (number ∷ map (λ lane. lane.number) lanes.now) }
    ensures right { IsTrue result → AllByRecursion IsRightLane lanes.now }
    ensures lines { IsTrue result → length (lines_in lanes.now) ≤ lines }
    ensures values { IsTrue result → length (filter is_value (lines_in lanes.now)) ≤ values }
{
    let Some((lane, rest)) = lanes.split_first() else {
        return true;
    };
    let asked = lane.lines.as_slice();
    let valued = count_values(asked);
    if lane.number <= number || asked.len() > lines || valued > values || !have_right(asked) {
        return false;
    }
    follow(lane.number, lines - asked.len(), values - valued, rest)
}

fn count_values(lines: &[Line]) -> usize
    ensures { result ≡ length (filter is_value lines.now) }
{
    lines.iter().filter(|line| is_valuation(line)).count()
}

fn is_valuation(line: &Line) -> bool
    ensures { result ≡ is_value line.now }
{
    match *line {
        Line::Value { .. } => true,
        _ => false,
    }
}

fn have_right(lines: &[Line]) -> bool
    ensures { IsTrue result → All IsRightLine lines.now }
{
    lines.iter().all(|line| is_right(line))
}

fn is_right(line: &Line) -> bool
    ensures { IsTrue result → IsRightLine line.now }
{
    match *line {
        Line::Post(command) => command.is_valid(),
        Line::Value { on, workers, .. } => is_day(on) && 1 <= workers && workers <= 64,
        Line::Trim => true,
    }
}

// From 1900-01-01 to 2199-12-31.
fn is_day(day: i32) -> bool
    ensures { IsTrue result → IsCommandDay day }
{
    -25_567 <= day && day <= 84_005
}

/// What lanes were answered, as it was written, and how many callers ran them.
#[derive(Drop)]
pub struct Run {
    pub callers: usize,
    pub lines: Vec<Written>,
}

/// Runs lanes if they may be run and there is memory, and reads what is written of their lines.
pub(crate) fn run_right<
    D: Disk + Send,
    W: Watching + Send,
    G: Gate + Sync,
    R: Threads + Wait + Sync,
>(
    rt: &R,
    alloc: Global,
    office: &Office<D, W>,
    pass: &mut OfficePass<D, W>,
    lanes: &[Lane],
    basis: &Basis,
    gate: &G,
    moments: &mut MomentInlet<D>,
) -> Option<Run>
    requires ours { pass.old.turnstile ≡ office.now }
    requires unheard { received moments.old.ring ≡ [] }
    ensures { (pass.new.turnstile ≡ pass.old.turnstile) × (pass.new.shares ≡ pass.old.shares) }
{
    if pass.left() < 1 << 40 || pass.shares() < 1 << 10 || !are_right(lanes) {
        return None;
    }
    let mut output = BytesSink::new(alloc, Vec::new(alloc));
    let ran = run_lanes::<R, LineWords, D, BytesSink<D>, W, G>(
        rt,
        alloc,
        office,
        pass,
        lanes,
        basis,
        gate,
        moments,
        &mut output,
    );
    let Ok(ran) = ran else {
        return None;
    };
    let lines = read_lines(alloc, output.bytes())?;
    if ran.written.is_err() || !are_tallied(&ran.transcript.lines, lines.as_slice()) {
        return None;
    }
    Some(Run {
        callers: ran.transcript.callers.as_slice().len(),
        lines,
    })
}

// Whether these are the tallies of lines that were all answered, none of them refused.
fn are_tallied(tallies: &TranscriptLines, lines: &[Written]) -> bool {
    tallies.accepted() == count_accepted(lines)
        && tallies.refused() == 0
        && !tallies.any_faulted()
        && tallies.lack().is_none()
}

/// Runs these lanes on an office in which the policies with the numbers from 1 to this one were issued, and closes
/// it. Also returns what the watchers report.
pub fn run_watched<W: Watching + Send, G: Gate + Sync, R: Threads + Wait + Sync>(
    rt: &R,
    alloc: Global,
    watchers: W,
    issued: u32,
    lanes: &[Lane],
    gate: &G,
) -> Result<(Run, Reports), Fail>
    requires { (before : ℕ) → W.told watchers before [] }
{
    let basis = flat_basis(alloc)?;
    let empty = MemoryDisk::new(alloc, Vec::new(alloc), Vec::new(alloc));
    let Ok((outlet, mut moments)) = moment_ring(alloc) else {
        return Err("a ring".into());
    };
    let Ok((office, mut pass)) = start_telling(alloc, empty, watchers, outlet) else {
        return Err("an office".into());
    };
    issue_all(rt, &office, &mut pass, issued);
    let run = run_right(
        rt,
        alloc,
        &office,
        &mut pass,
        lanes,
        &basis,
        gate,
        &mut moments,
    );
    let (_, _, reports, _) = close(office, pass);
    match run {
        Some(run) => Ok((run, reports)),
        None => Err("right lanes, and memory".into()),
    }
}

/// The same without watchers.
pub fn run_on<G: Gate + Sync, R: Threads + Wait + Sync>(
    rt: &R,
    alloc: Global,
    issued: u32,
    lanes: &[Lane],
    gate: &G,
) -> Result<Run, Fail> {
    let (run, _) = run_watched(rt, alloc, NoWatchers, issued, lanes, gate)?;
    Ok(run)
}
