// The lanes of the policies that are drawn.
ghost use Rattle.std.specs.Prelude.{◌≡◌, ◌++◌, ◌∷◌, [], ◌<◌, ◌≤◌, ◌^◌, IfOk, OnOk};
ghost use Rattle.load_maker.specs.GeneratedRows.{generated_rows};
ghost use Rattle.load_maker.specs.GeneratedLanes.{AreDealt, generated_lanes};
ghost use Rattle.command_csv.specs.Reads.{lines_of};
ghost use Rattle.load_maker.specs.inside.Rows.{drawn_issue, drawn_premium};

use crate::generator::{Drawn, Generator};
use memory_requests::{extend, push};
use policy_types::{Command, Lane, Line, Lines, NoMemory, Script};
use std::alloc::Global;

/// The lanes of `make_script`'s script, in order, with its rows as lines. A lane without rows is left out.
pub fn make_lanes(alloc: Global, seed: u32, count: u32, lanes: u8) -> Result<Script, NoMemory>
    requires seed { seed < 2 ^ 31 }
    requires count { (1 ≤ count) × (count ≤ 100000) }
    requires lanes { (1 ≤ lanes) × (lanes ≤ 8) }
    ensures lanes { IfOk result (λ script. script ≡ generated_lanes seed lanes count) }
    ensures dealt { IfOk result (AreDealt lanes count) }
{
    let mut dealt = Vec::new(alloc);
    for before in 0..lanes {
        let number = before + 1;
        let lines = make_lines(alloc, seed, count, lanes, number)?;
        if !lines.is_empty() {
            let lines = Lines::new(lines);
            push(&mut dealt, Lane { number, lines })?;
        }
    }
    Ok(Script::new(dealt))
}

// The lines of one lane. All policies are drawn, since each draw begins from the number that the one before it left.
#[tactic(auto, unfolding(crate::specs::Generator::state_after))]
fn make_lines(
    alloc: Global,
    seed: u32,
    count: u32,
    lanes: u8,
    lane: u8,
) -> Result<Vec<Line>, NoMemory>
    requires seed { seed < 2 ^ 31 }
    requires count { (1 ≤ count) × (count ≤ 100000) }
    requires lanes { (1 ≤ lanes) × (lanes ≤ 8) }
    ensures { IfOk result (λ lines. lines.items ≡ lines_of lane (generated_rows seed lanes count)) }
{
    let mut generator = Generator::new(seed);
    let mut lines = Vec::new(alloc);
    for before in 0..count {
        let policy = generator.next_policy();
        let dealt_to = 1 + (before % lanes as u32) as u8;
        if dealt_to == lane {
            add_lines(&mut lines, before + 1, &policy)?;
        }
    }
    Ok(lines)
}

// Adds the line that issues a policy, and the line of its first premium.
fn add_lines(lines: &mut Vec<Line>, id: u32, policy: &Drawn) -> Result<(), NoMemory>
    ensures { let p = policy.now in OnOk result (lines.new.items
        ≡ lines.old.items ++ (drawn_issue id p ∷ drawn_premium id p ∷ [])) }
{
    let Drawn {
        plan,
        age,
        years,
        amount,
        premium,
        issued: day,
    } = *policy;
    let issue = Command::Issue {
        id,
        day,
        plan,
        age,
        years,
        amount,
        premium,
    };
    let first_premium = Command::Premium {
        id,
        day,
        amount: premium,
    };
    extend(lines, &[Line::Post(issue), Line::Post(first_premium)])
}
