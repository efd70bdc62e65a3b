// The lines of accepted commands.
ghost use Rattle.std.specs.Prelude.{◌≡◌, ◌≤◌, ◌++◌, [], ◌∷◌, IfOk, OnOk};
ghost use Rattle.money_core.specs.CentsText.{cents_text};
ghost use Rattle.statements.specs.Names.{IsCommandDay, IsValid, day_text, entry_fields, behind_commas};
ghost use Rattle.statements.specs.Statements.{entry_text};

use policy_types::{Command, NoMemory};
use std::alloc::Global;
use text_lines::{LineWriter, Text, kind_word};

/// The line of an accepted command; `position` is its number among all of them, from 1.
pub fn print_entry(alloc: Global, position: u32, command: &Command) -> Result<Text, NoMemory>
    requires { IsValid command.now }
    ensures { IfOk result (λ text. text ≡ entry_text position command.now) }
{
    let mut lines = LineWriter::new(alloc);
    write_entry(&mut lines, position, command)?;
    Ok(lines.into_text())
}

// Adds the line of an accepted command.
#[tactic(auto, unfolding(crate::specs::Statements::entry_text))]
pub fn write_entry(lines: &mut LineWriter, position: u32, command: &Command) -> Result<(), NoMemory>
    requires { IsValid command.now }
    ensures { OnOk result (lines.new ≡ lines.old ++ entry_text position command.now) }
{
    lines.first("entry")?;
    lines.number(position)?;
    lines.word(kind_word(command))?;
    write_fields(lines, command)?;
    lines.end()
}

// Adds what a command holds besides its kind and its policy's number: its day, if it has one, and its terms.
fn write_fields(lines: &mut LineWriter, command: &Command) -> Result<(), NoMemory>
    requires { IsValid command.now }
    ensures { OnOk result (lines.new ≡ lines.old ++ behind_commas (entry_fields command.now)) }
{
    match *command {
        Command::Issue {
            day,
            plan,
            age,
            years,
            amount,
            premium,
            ..
        } => {
            lines.day(day)?;
            lines.insurance(plan, age, years, amount, premium)
        }
        Command::Alter {
            day,
            amount,
            premium,
            ..
        } => {
            lines.day(day)?;
            lines.cents(amount as i64)?;
            lines.cents(premium as i64)
        }
        Command::Premium { day, amount, .. } => write_amount(lines, day, amount),
        Command::Reinstate { day, amount, .. } => write_amount(lines, day, amount),
        Command::Settle { day, amount, .. } => write_amount(lines, day, amount),
        Command::PaidUp { day, amount, .. } => write_amount(lines, day, amount),
        Command::Lapse { day, .. } => lines.day(day),
        Command::Claim { day, .. } => lines.day(day),
        Command::Mature { day, .. } => lines.day(day),
        Command::Upgrade => Ok(()),
    }
}

// Adds a day, and an amount of that day.
fn write_amount(lines: &mut LineWriter, day: i32, amount: u64) -> Result<(), NoMemory>
    requires { IsCommandDay day × (amount ≤ 40000000000) }
    ensures { OnOk result (lines.new ≡ lines.old ++ behind_commas (day_text day ∷ cents_text amount ∷ [])) }
{
    lines.day(day)?;
    lines.cents(amount as i64)
}
