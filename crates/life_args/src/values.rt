// What the values of a command line mean.
ghost use Rattle.std.specs.Prelude.{◌≡◌, ◌≢◌, ◌≤◌, ◌↔◌, ℕ, [], ◌∷◌, length, IsTrue, IfSome, IfNone, decimal};
ghost use Rattle.life_args.specs.Pieces.{AtMostOne};
ghost use Rattle.life_args.specs.Values.{IsPositionOr, AreWorkersOr, IsBasisOr, IsMeasureBy, IsPolicyOr};
ghost use Rattle.life_args.specs.inside.Lines.{GivesAsked};
ghost use Rattle.life_args.specs.inside.Verbs.{GivesLone, IsDayValue, IsNumberValue, texts_of};

use crate::fault::WordsFault;
use basis_book::Name;
use life_dates::parse_day;
use money_core::parse_number;
use policy_types::{At, MOST_COMMANDS};
use policy_value::Measure;
use std::alloc::Global;

/// The day of a valuation or projection, in days since 1970-01-01.
pub fn day_of(value: &str) -> Result<i32, WordsFault>
    ensures { GivesAsked (IsDayValue value.now) result }
{
    parse_day(value.as_bytes()).ok_or(WordsFault::Usage)
}

/// The position of a valuation: the end of the journal if none is given.
pub fn position_of(values: Option<&[&str]>) -> Result<At, WordsFault>
    ensures { GivesAsked (λ at. AtMostOne (texts_of values.entry) (λ given. IsPositionOr given at)) result }
{
    match values {
        None | Some([]) => Ok(At::Now),
        Some([text]) => Ok(At::Position(number_of(text, 0, u64::from(MOST_COMMANDS))? as u32)),
        _ => Err(WordsFault::Usage),
    }
}

/// The number of workers: 1 if none is given.
pub fn workers_of(values: Option<&[&str]>) -> Result<u8, WordsFault>
    ensures { GivesAsked (λ workers. AtMostOne (texts_of values.entry) (λ given. AreWorkersOr given workers)) result }
{
    match values {
        None | Some([]) => Ok(1),
        Some([text]) => Ok(number_of(text, 1, 64)? as u8),
        _ => Err(WordsFault::Usage),
    }
}

/// The name of the basis file: `basis.csv` if none is given.
pub fn basis_of(alloc: Global, values: Option<&[&str]>) -> Result<Name, WordsFault>
    ensures { GivesAsked (λ basis. AtMostOne (texts_of values.entry) (λ given. IsBasisOr given basis)) result }
{
    let text = match values {
        None | Some([]) => "basis.csv",
        Some([text]) => *text,
        _ => return Err(WordsFault::Usage),
    };
    match Name::of(alloc, text.as_bytes()) {
        Ok(Some(name)) => Ok(name),
        Ok(None) => Err(WordsFault::Usage),
        Err(lack) => Err(WordsFault::NoMemory(lack)),
    }
}

/// The reserve that is asked for, by the uses of `--mean` and those of `--deficiency`: at most one of the two flags,
/// and only once.
pub fn measure_of(mean: Option<&[&str]>, deficiency: Option<&[&str]>) -> Result<Measure, WordsFault>
    ensures { GivesAsked (IsMeasureBy (texts_of mean.entry) (texts_of deficiency.entry)) result }
{
    let mean = lone(mean)?;
    let deficiency = lone(deficiency)?;
    match (mean, deficiency) {
        (None, None) => Ok(Measure::Terminal),
        (Some(_), None) => Ok(Measure::Mean),
        (None, Some(_)) => Ok(Measure::Deficiency),
        (Some(_), Some(_)) => Err(WordsFault::Usage),
    }
}

/// The number of the policy whose entries are asked for, if one is given.
pub fn policy_of(values: Option<&[&str]>) -> Result<Option<u32>, WordsFault>
    ensures { GivesAsked (λ id. AtMostOne (texts_of values.entry) (λ given. IsPolicyOr given id)) result }
{
    match values {
        None | Some([]) => Ok(None),
        Some([text]) => match parse_count(text, 4_294_967_295) {
            Some(id) => Ok(Some(id as u32)),
            None => Err(WordsFault::Usage),
        },
        _ => Err(WordsFault::Usage),
    }
}

/// A number from `least` to `most`.
pub fn number_of(value: &str, least: u64, most: u64) -> Result<u64, WordsFault>
    ensures { GivesAsked (IsNumberValue least most value.now) result }
{
    match parse_number(value.as_bytes(), most) {
        Some(number) if least <= number => Ok(number),
        _ => Err(WordsFault::Usage),
    }
}

/// Whether there is no value.
pub fn is_empty(values: Option<&[&str]>) -> bool
    ensures { IsTrue result ↔ (texts_of values.entry ≡ []) }
{
    match values {
        None | Some([]) => true,
        _ => false,
    }
}

/// The values, if there are three.
pub fn three<'a>(values: Option<&[&'a str]>) -> Option<(&'a str, &'a str, &'a str)>
    ensures some { IfSome result (λ all. texts_of values.entry ≡ all.0.now ∷ all.1.now ∷ all.2.now ∷ []) }
    ensures none { IfNone result (length (texts_of values.entry) ≢ 3) }
{
    match values {
        Some([a, b, c]) => Some((*a, *b, *c)),
        _ => None,
    }
}

/// The values, if there are four.
pub fn four<'a>(values: Option<&[&'a str]>) -> Option<(&'a str, &'a str, &'a str, &'a str)>
    ensures some { IfSome result (λ all. texts_of values.entry ≡ all.0.now ∷ all.1.now ∷ all.2.now ∷ all.3.now ∷ []) }
    ensures none { IfNone result (length (texts_of values.entry) ≢ 4) }
{
    match values {
        Some([a, b, c, d]) => Some((*a, *b, *c, *d)),
        _ => None,
    }
}

// The value, if there is at most one.
fn lone<'a>(values: Option<&[&'a str]>) -> Result<Option<&'a str>, WordsFault>
    ensures { GivesLone (texts_of values.entry) result }
{
    match values {
        None | Some([]) => Ok(None),
        Some([value]) => Ok(Some(*value)),
        _ => Err(WordsFault::Usage),
    }
}

// A number from 1 to `most`.
fn parse_count(text: &str, most: u64) -> Option<u64>
    ensures some { IfSome result (λ n. (1 ≤ n) × (n ≤ most) × (text.now ≡ decimal n)) }
    ensures none { IfNone result ((n : ℕ) → 1 ≤ n → n ≤ most → text.now ≢ decimal n) }
{
    match parse_number(text.as_bytes(), most)? {
        0 => None,
        number => Some(number),
    }
}
