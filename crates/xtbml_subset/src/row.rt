ghost use Rattle.std.specs.Prelude.{◌≡◌, ℕ, ◌≤◌, ◌<◌, ◌+◌, ◌*◌, ◌^◌, [], ◌∷◌, Some, None, Ok, Err, length, IfSome, IfOk, IfErr, MatchBool, MatchOption, MatchResult, codes};
ghost use Rattle.std.specs.Option.{option_copied, ForSome};
ghost use Rattle.xtbml_subset.specs.Checks.{digit_then, short_number, age_of, age_of_first, ReadsRate, ReadsAll};
ghost use Rattle.xtbml_subset.specs.inside.Steps.{is_due, ReadsRow};
ghost use Rattle.xtbml_subset.specs.inside.Rows.{row_of, rows_from};
ghost use Rattle.xtbml_subset.specs.Answers.{Unless};
ghost use Rattle.xtbml_subset.specs.inside.Elements.{siblings_at};
ghost use Rattle.xtbml_subset.specs.inside.Views.{found_of};

use crate::fault::{TableFault, TableKind};
use crate::found::Element;
use crate::text::trim;
use decimal_text::read_rate;
use memory_requests::push;
use std::alloc::Global;

fn add_digit(number: u16, byte: u8) -> Option<u16>
    requires { number < 1000 }
    ensures digit { result ≡ digit_then number byte }
    ensures small { IfSome result (λ n. n < 10 * number + 10) }
{
    if 48 <= byte && byte <= 57 {
        Some(number * 10 + u16::from(byte - 48))
    } else {
        None
    }
}

/// The whole number that one to three digits spell.
pub fn short_number(text: &[u8]) -> Option<u16>
    ensures number { result ≡ short_number text.now }
    ensures small { IfSome result (λ number. number < 1000) }
{
    match text {
        [] => None,
        [a] => add_digit(0, *a),
        [a, b] => add_digit(add_digit(0, *a)?, *b),
        [a, b, c] => add_digit(add_digit(add_digit(0, *a)?, *b)?, *c),
        [_, _, _, _, ..] => None,
    }
}

/// The age that a label spells.
#[tactic(auto, unfolding(crate::specs::Checks::age_of))]
pub fn age_of(label: Option<&[u8]>) -> Option<u8>
    ensures age { result ≡ age_of (option_copied label.entry) }
    ensures bound { IfSome result (λ age. age ≤ 130) }
{
    let age = short_number(label?)?;
    if age <= 130 { Some(age as u8) } else { None }
}

/// The rate that a content spells, in units of 10^-9.
pub fn rate_in(text: Option<&[u8]>) -> Option<u32>
    requires { ForSome text (λ t. length t.now ≤ 4194304) }
    ensures { ReadsRate (option_copied text.entry) result }
{
    let Some(text) = text else {
        return None;
    };
    match read_rate(trim(text)) {
        Ok(rate) => Some(rate),
        Err(_) => None,
    }
}

pub fn is_due(due: Option<u8>, age: u8) -> bool
    ensures { result ≡ is_due due age }
{
    match due {
        None => true,
        Some(due) => age == due,
    }
}

/// The age and the rate of a row. The age that is due is `None` for the first row.
pub fn read_row(row: &Element<'_>, due: Option<u8>, total: u32) -> Result<(u8, u32), TableFault>
    ensures row { MatchResult result
        (λ read. ReadsRow due (row_of total (found_of row.now)) (Ok (Some (read.0 + 1), read.1)))
        (λ fault. ReadsRow due (row_of total (found_of row.now)) (Err fault)) }
    ensures age { IfOk result (λ read. read.0 ≤ 130) }
{
    let at = row.place(total);
    let Some(age) = age_of(row.attribute(b"t")) else {
        return Err(TableFault::Bad {
            at,
            kind: TableKind::BadAge,
        });
    };
    if !is_due(due, age) {
        return Err(TableFault::Bad {
            at,
            kind: TableKind::AgeGap,
        });
    }
    match rate_in(row.text()) {
        Some(rate) => Ok((age, rate)),
        None => Err(TableFault::Bad {
            at,
            kind: TableKind::BadRate,
        }),
    }
}

/// The next `Y` after one, if `left` isn't 0.
fn next_row<'a>(row: &Element<'a>, left: usize) -> Option<Element<'a>>
    requires { length (siblings_at (codes "Y") (found_of row.now)) ≡ left }
    ensures shorter { IfSome result (λ e. length e.rest.now < length row.now.rest.now) }
    ensures siblings { MatchOption result
        (siblings_at (codes "Y") (found_of row.now) ≡ [])
        (λ e. siblings_at (codes "Y") (found_of row.now) ≡ found_of e ∷ siblings_at (codes "Y") (found_of e)) }
{
    if left == 0 {
        return None;
    }
    row.next_sibling(b"Y")
}

/// The rates of a `Y` and of those after it, in order; how many there are is given.
pub fn read_rows(
    alloc: Global,
    first: &Element<'_>,
    count: usize,
    total: u32,
) -> Result<Vec<u32>, TableFault>
    requires { 1 + length (siblings_at (codes "Y") (found_of first.now)) ≡ count }
    ensures read { IfOk result (λ rates. ReadsAll ReadsRow None (rows_from total (found_of first.now)) (Ok rates.items)) }
    ensures fault { IfErr result (λ fault. Unless fault (ReadsAll ReadsRow None (rows_from total (found_of first.now)) (Err fault))) }
{
    let mut rates = Vec::new(alloc);
    let mut due: Option<u8> = None;
    let mut left = count;
    let mut next = Some(*first);
    while let Some(row) = next {
        let (age, rate) = read_row(&row, due, total)?;
        push(&mut rates, rate)?;
        due = Some(age + 1);
        left -= 1;
        next = next_row(&row, left);
    }
    Ok(rates)
}

/// The age of a `Y`, or 0 if it has none.
pub fn age_at(row: &Element<'_>) -> u8
    ensures { (total : ℕ) → result ≡ age_of_first (rows_from total (found_of row.now)) (λ row. row.label) }
{
    match age_of(row.attribute(b"t")) {
        Some(age) => age,
        None => 0,
    }
}
