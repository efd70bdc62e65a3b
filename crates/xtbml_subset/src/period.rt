ghost use Rattle.std.specs.Prelude.{◌≡◌, ℕ, ◌+◌, ◌<◌, ◌≤◌, None, Ok, Err, length, IfSome, IfOk, IfErr, MatchOption, MatchBool, codes};
ghost use Rattle.std.specs.Option.{option_copied};
ghost use Rattle.xtbml_subset.specs.Answers.{Unless};
ghost use Rattle.xtbml_subset.specs.Checks.{ReadsAll};
ghost use Rattle.xtbml_subset.specs.SelectChecks.{filled, ReadsDuration};
ghost use Rattle.xtbml_subset.specs.inside.Steps.{is_blank};
ghost use Rattle.xtbml_subset.specs.inside.Steps.{has_filled, duration_of, follows, is_duration};
ghost use Rattle.xtbml_subset.specs.inside.Elements.{text_at};
ghost use Rattle.xtbml_subset.specs.inside.Rows.{row_of, rows_from};
ghost use Rattle.xtbml_subset.specs.inside.Views.{found_of};

use crate::class::Class;
use crate::fault::{TableFault, TableKind};
use crate::found::Element;
use crate::row::{rate_in, short_number};
use crate::text::skip;
use memory_requests::push;
use std::alloc::Global;

/// How far the rates of an issue age have been read.
#[derive(Clone, Copy)]
pub struct Attained {
    /// The duration that is due; `None` before the first rate.
    pub duration: Option<u16>,
    /// The age at which the next rate holds.
    pub age: u8,
}

/// Whether the content of a `Y` is only white space, or nothing.
fn is_blank(row: &Element<'_>) -> bool
    ensures { result ≡ is_blank (text_at (found_of row.now)) }
{
    match row.text() {
        Some(text) => match skip(text, Class::White) {
            [] => true,
            [_, ..] => false,
        },
        None => false,
    }
}

/// Whether a `Y`, or one after it, isn't blank.
fn has_filled(first: &Element<'_>) -> bool
    ensures { (total : ℕ) → result ≡ has_filled (rows_from total (found_of first.now)) }
{
    let mut next = Some(*first);
    while let Some(row) = next {
        if !is_blank(&row) {
            return true;
        }
        next = row.next_sibling(b"Y");
    }
    false
}

/// The duration that a label spells.
fn duration_of(label: Option<&[u8]>) -> Option<u16>
    ensures duration { result ≡ duration_of (option_copied label.entry) }
    ensures small { IfSome result (λ duration. duration < 1000) }
{
    short_number(label?)
}

fn follows(due: Option<u16>, duration: u16) -> bool
    ensures { result ≡ follows due duration }
{
    match due {
        None => duration <= 1,
        Some(due) => duration == due,
    }
}

fn is_duration(due: Attained, duration: u16) -> bool
    ensures { result ≡ is_duration due duration }
{
    follows(due.duration, duration) && due.age <= 130
}

/// The rate of a `Y`, in units of 10^-9, and what is due after it.
fn read_duration(
    row: &Element<'_>,
    due: Attained,
    total: u32,
) -> Result<(Attained, u32), TableFault>
    ensures { ReadsDuration due (row_of total (found_of row.now)) result }
{
    let at = row.place(total);
    let Some(duration) = duration_of(row.attribute(b"t")) else {
        return Err(TableFault::Bad {
            at,
            kind: TableKind::BadDuration,
        });
    };
    if !is_duration(due, duration) {
        return Err(TableFault::Bad {
            at,
            kind: TableKind::BadDuration,
        });
    }
    match rate_in(row.text()) {
        Some(rate) => Ok((
            Attained {
                duration: Some(duration + 1),
                age: due.age + 1,
            },
            rate,
        )),
        None => Err(TableFault::Bad {
            at,
            kind: TableKind::BadRate,
        }),
    }
}

/// The rates of an issue age from its first `Y` on, in units of 10^-9. Blank ones after the last that isn't blank are
/// skipped.
pub fn read_period(
    alloc: Global,
    first: &Element<'_>,
    age: u8,
    total: u32,
) -> Result<Vec<u32>, TableFault>
    ensures read { IfOk result (λ rates.
        ReadsAll ReadsDuration (record { duration = None; age = age }) (filled (rows_from total (found_of first.now))) (Ok rates.items)) }
    ensures fault { IfErr result (λ fault. Unless fault
        (ReadsAll ReadsDuration (record { duration = None; age = age }) (filled (rows_from total (found_of first.now))) (Err fault))) }
{
    let mut rates = Vec::new(alloc);
    let mut due = Attained {
        duration: None,
        age,
    };
    let mut next = Some(*first);
    while let Some(row) = next {
        if !has_filled(&row) {
            return Ok(rates);
        }
        let (after, rate) = read_duration(&row, due, total)?;
        push(&mut rates, rate)?;
        due = after;
        next = row.next_sibling(b"Y");
    }
    Ok(rates)
}
