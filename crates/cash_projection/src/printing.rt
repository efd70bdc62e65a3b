// The text of a projection.
ghost use Rattle.std.specs.Prelude.{◌≡◌, ◌≤◌, ◌++◌, ◌∷◌, [], codes, decimal, length, IfOk, OnOk};
ghost use Rattle.cash_projection.specs.Names.{All, behind_commas};
ghost use Rattle.life_dates.specs.Calendar.{IsTermDay};
ghost use Rattle.money_core.specs.CentsText.{cents_text};
ghost use Rattle.text_lines.specs.Lines.{line_of};
ghost use Rattle.cash_projection.specs.Text.{IsTellable, projection_text, year_text};
ghost use Rattle.cash_projection.specs.inside.Ahead.{asked_text};

use crate::years::{Year, Years};
use policy_types::NoMemory;
use std::alloc::Global;
use text_lines::{LineWriter, Text};

/// What the policies after `position` commands are expected to pay and to be paid.
#[derive(Drop)]
pub struct Projection {
    /// The position that was pinned.
    pub position: u32,
    /// The day from which it is projected, in days since 1970-01-01.
    pub on: i32,
    /// How many policies there are.
    pub policies: u32,
    /// How many of them have no value, but a word that says why.
    pub unvalued: u32,
    pub years: Years,
}

/// The whole text of a projection: a line such as `project,2020-12-31,1,1,3`, one such as
/// `year,0,400.00,400.00,100.00,100.00,0.00,0.00` for each year, and `unvalued,0`.
pub fn print_projection(alloc: Global, projection: &Projection) -> Result<Text, NoMemory>
    requires on { IsTermDay projection.now.on }
    requires few { length projection.now.years ≤ 131 }
    requires bounded { All IsTellable projection.now.years }
    ensures { IfOk result (λ text. text ≡ projection_text projection.now) }
{
    let mut lines = LineWriter::new(alloc);
    write_asked(&mut lines, projection)?;
    for (j, year) in projection.years.as_slice().iter().enumerate() {
        write_year(&mut lines, j as u32, year)?;
    }
    write_words(&mut lines, projection.unvalued)?;
    Ok(lines.into_text())
}

// Adds the line that says what was projected.
fn write_asked(lines: &mut LineWriter, projection: &Projection) -> Result<(), NoMemory>
    requires on { IsTermDay projection.now.on }
    requires few { length projection.now.years ≤ 131 }
    ensures { OnOk result (lines.new ≡ lines.old ++ asked_text projection.now) }
{
    lines.first("project")?;
    lines.day(projection.on)?;
    lines.number(projection.position)?;
    lines.number(projection.policies)?;
    lines.number(projection.years.as_slice().len() as u32)?;
    lines.end()
}

// Adds the line of a year.
#[tactic(auto, unfolding(crate::specs::Text::year_text))]
fn write_year(lines: &mut LineWriter, j: u32, year: &Year) -> Result<(), NoMemory>
    requires { IsTellable year.now }
    ensures { OnOk result (lines.new ≡ lines.old ++ year_text j year.now) }
{
    lines.first("year")?;
    lines.number(j)?;
    write_bounds(lines, year)?;
    lines.end()
}

// Adds the bounds of a year.
fn write_bounds(lines: &mut LineWriter, year: &Year) -> Result<(), NoMemory>
    requires { IsTellable year.now }
    ensures { OnOk result (lines.new ≡ lines.old ++ behind_commas
        (cents_text year.now.premium.lo ∷ cents_text year.now.premium.hi ∷ cents_text year.now.death.lo ∷ cents_text year.now.death.hi
        ∷ cents_text year.now.maturity.lo ∷ cents_text year.now.maturity.hi ∷ [])) }
{
    lines.cents(year.premium.lo as i64)?;
    lines.cents(year.premium.hi as i64)?;
    lines.cents(year.death.lo as i64)?;
    lines.cents(year.death.hi as i64)?;
    lines.cents(year.maturity.lo as i64)?;
    lines.cents(year.maturity.hi as i64)
}

// Adds how many policies have no value.
fn write_words(lines: &mut LineWriter, unvalued: u32) -> Result<(), NoMemory>
    ensures { OnOk result (lines.new ≡ lines.old ++ line_of (codes "unvalued") (decimal unvalued ∷ [])) }
{
    lines.first("unvalued")?;
    lines.number(unvalued)?;
    lines.end()
}
