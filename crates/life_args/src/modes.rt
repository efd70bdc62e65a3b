// The mode of each verb, by the values after it.
ghost use Rattle.clap.specs.Words.{found_of};
ghost use Rattle.life_args.specs.inside.Lines.{GivesAsked};
ghost use Rattle.life_args.specs.inside.Verbs.{AreDrawn, AsksFor};

use crate::fault::WordsFault;
use crate::mode::Mode;
use crate::values::{
    basis_of, day_of, four, is_empty, measure_of, number_of, policy_of, position_of, three,
    workers_of,
};
use crate::verb::Verb;
use clap::ArgMatches;
use std::alloc::Global;

/// The mode that a verb and what comes after it ask for.
pub fn mode_of(alloc: Global, verb: Verb, line: &ArgMatches) -> Result<Mode, WordsFault>
    ensures { GivesAsked (AsksFor verb (found_of line.now)) result }
{
    match verb {
        Verb::Run => run_of(alloc, line),
        Verb::Value => value_of(alloc, line),
        Verb::Project => project_of(alloc, line),
        Verb::State => state_of(line),
        Verb::Checkpoint => checkpoint_of(line),
        Verb::Generate => generate_of(line),
        Verb::Load => load_of(line),
    }
}

fn run_of(alloc: Global, line: &ArgMatches) -> Result<Mode, WordsFault>
    ensures { GivesAsked (AsksFor Verb.Run (found_of line.now)) result }
{
    if !is_empty(line.get_strs("values")) {
        return Err(WordsFault::Usage);
    }
    let basis = basis_of(alloc, line.get_strs("basis"))?;
    Ok(Mode::Run { basis })
}

fn value_of(alloc: Global, line: &ArgMatches) -> Result<Mode, WordsFault>
    ensures { GivesAsked (AsksFor Verb.Value (found_of line.now)) result }
{
    let Some([on]) = line.get_strs("values") else {
        return Err(WordsFault::Usage);
    };
    let on = day_of(on)?;
    let at = position_of(line.get_strs("at"))?;
    let workers = workers_of(line.get_strs("workers"))?;
    let measure = measure_of(line.get_strs("mean"), line.get_strs("deficiency"))?;
    let basis = basis_of(alloc, line.get_strs("basis"))?;
    Ok(Mode::Value {
        on,
        at,
        workers,
        basis,
        measure,
    })
}

fn project_of(alloc: Global, line: &ArgMatches) -> Result<Mode, WordsFault>
    ensures { GivesAsked (AsksFor Verb.Project (found_of line.now)) result }
{
    let Some([on, years]) = line.get_strs("values") else {
        return Err(WordsFault::Usage);
    };
    let on = day_of(on)?;
    let years = number_of(years, 1, 131)?;
    let workers = workers_of(line.get_strs("workers"))?;
    let basis = basis_of(alloc, line.get_strs("basis"))?;
    Ok(Mode::Project {
        on,
        years: years as u8,
        workers,
        basis,
    })
}

fn state_of(line: &ArgMatches) -> Result<Mode, WordsFault>
    ensures { GivesAsked (AsksFor Verb.State (found_of line.now)) result }
{
    let id = policy_of(line.get_strs("values"))?;
    Ok(Mode::State { id })
}

fn checkpoint_of(line: &ArgMatches) -> Result<Mode, WordsFault>
    ensures { GivesAsked (AsksFor Verb.Checkpoint (found_of line.now)) result }
{
    if !is_empty(line.get_strs("values")) {
        return Err(WordsFault::Usage);
    }
    Ok(Mode::Checkpoint)
}

fn generate_of(line: &ArgMatches) -> Result<Mode, WordsFault>
    ensures { GivesAsked (AsksFor Verb.Generate (found_of line.now)) result }
{
    let Some((seed, count, lanes)) = three(line.get_strs("values")) else {
        return Err(WordsFault::Usage);
    };
    let (seed, count, lanes) = draws_of(seed, count, lanes)?;
    Ok(Mode::Generate { seed, count, lanes })
}

fn load_of(line: &ArgMatches) -> Result<Mode, WordsFault>
    ensures { GivesAsked (AsksFor Verb.Load (found_of line.now)) result }
{
    let Some((seed, count, lanes, workers)) = four(line.get_strs("values")) else {
        return Err(WordsFault::Usage);
    };
    let (seed, count, lanes) = draws_of(seed, count, lanes)?;
    let workers = number_of(workers, 1, 64)?;
    Ok(Mode::Load {
        seed,
        count,
        lanes,
        workers: workers as u8,
    })
}

// The seed, the policies and the lanes of a script.
fn draws_of(seed: &str, count: &str, lanes: &str) -> Result<(u32, u32, u8), WordsFault>
    ensures { GivesAsked (AreDrawn seed.now count.now lanes.now) result }
{
    let seed = number_of(seed, 0, 2_147_483_647)?;
    let count = number_of(count, 1, 100_000)?;
    let lanes = number_of(lanes, 1, 8)?;
    Ok((seed as u32, count as u32, lanes as u8))
}
