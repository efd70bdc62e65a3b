ghost use Rattle.std.specs.Prelude.{◌≡◌, ℕ, ◌+◌, Some, None, Ok, Err, [], ◌∷◌, map, IfOk, IfErr, MatchOption, codes, ◌≤◌};
ghost use Rattle.xtbml_subset.specs.Answers.{Unless};
ghost use Rattle.xtbml_subset.specs.Checks.{in_first, age_of_first, ReadsAll};
ghost use Rattle.xtbml_subset.specs.SelectChecks.{durations_of, issue_axes, issue_age_of, ReadsDuration, ReadsPeriod};
ghost use Rattle.xtbml_subset.specs.inside.Steps.{ReadsIssue};
ghost use Rattle.xtbml_subset.specs.inside.Elements.{Found, children_at, siblings_at};
ghost use Rattle.xtbml_subset.specs.inside.Rows.{row_of, found_asks};
ghost use Rattle.xtbml_subset.specs.inside.Issues.{issues_from};
ghost use Rattle.xtbml_subset.specs.inside.Views.{found_of};

use crate::fault::{TableFault, TableKind};
use crate::found::Element;
use crate::period::read_period;
use crate::row::{age_at, age_of, is_due};
use memory_requests::push;
use select_rates::SelectRows;
use std::alloc::Global;

/// The issue ages of a select table.
#[derive(Drop)]
pub struct Issues {
    pub first_age: u8,
    /// The place of each issue age's axis.
    pub places: Vec<u32>,
    /// The rates of each issue age by duration, in units of 10^-9.
    pub rows: SelectRows,
}

/// The first `Y` of an issue age.
#[tactic(auto, unfolding(crate::specs::SelectChecks::durations_of))]
fn first_duration<'a>(axis: &Element<'a>) -> Option<Element<'a>>
    ensures { (total : ℕ) → MatchOption result
        (durations_of (found_asks total) (found_of axis.now) ≡ [])
        (λ first. durations_of (found_asks total) (found_of axis.now) ≡ found_of first ∷ siblings_at (codes "Y") (found_of first)) }
{
    if let Some(first) = axis.first_child(b"Y") {
        return Some(first);
    }
    axis.first_child(b"Axis")?.first_child(b"Y")
}

/// The rates of an issue age; there may be none.
fn all_rates(alloc: Global, axis: &Element<'_>, age: u8, total: u32) -> Result<Vec<u32>, TableFault>
    ensures read { IfOk result (λ rates.
        ReadsAll ReadsDuration (record { duration = None; age = age }) (issue_age_of (found_asks total) (found_of axis.now)).rates (Ok rates.items)) }
    ensures fault { IfErr result (λ fault. Unless fault
        (ReadsAll ReadsDuration (record { duration = None; age = age }) (issue_age_of (found_asks total) (found_of axis.now)).rates (Err fault))) }
{
    match first_duration(axis) {
        Some(first) => read_period(alloc, &first, age, total),
        None => Ok(Vec::new(alloc)),
    }
}

/// The rates of an issue age, which has at least one.
fn rates_of_issue(
    alloc: Global,
    axis: &Element<'_>,
    age: u8,
    total: u32,
) -> Result<Vec<u32>, TableFault>
    ensures read { IfOk result (λ rates.
        ReadsPeriod (row_of total (found_of axis.now)).at age (issue_age_of (found_asks total) (found_of axis.now)).rates
        (Ok (Some (age + 1), rates.items))) }
    ensures fault { IfErr result (λ fault. Unless fault
        (ReadsPeriod (row_of total (found_of axis.now)).at age (issue_age_of (found_asks total) (found_of axis.now)).rates
        (Err fault))) }
{
    let rates = all_rates(alloc, axis, age, total)?;
    if rates.is_empty() {
        return Err(TableFault::Bad {
            at: axis.place(total),
            kind: TableKind::BadDuration,
        });
    }
    Ok(rates)
}

/// The age and the rates of an issue age. The age that is due is `None` for the first one.
fn read_issue(
    alloc: Global,
    axis: &Element<'_>,
    due: Option<u8>,
    total: u32,
) -> Result<(u8, Vec<u32>), TableFault>
    ensures read { IfOk result (λ read.
        ReadsIssue due (issue_age_of (found_asks total) (found_of axis.now)) (Ok (Some (read.0 + 1), read.1.items))) }
    ensures age { IfOk result (λ read. read.0 ≤ 130) }
    ensures fault { IfErr result (λ fault. Unless fault
        (ReadsIssue due (issue_age_of (found_asks total) (found_of axis.now)) (Err fault))) }
{
    let at = axis.place(total);
    let Some(age) = age_of(axis.attribute(b"t")) else {
        return Err(TableFault::Bad {
            at,
            kind: TableKind::BadAge,
        });
    };
    if !is_due(due, age) {
        return Err(TableFault::Bad {
            at,
            kind: TableKind::AgeGap,
        });
    }
    let rates = rates_of_issue(alloc, axis, age, total)?;
    Ok((age, rates))
}

/// The issue ages whose axes are `first` and those of its siblings that come after it.
pub fn read_issues(alloc: Global, first: &Element<'_>, total: u32) -> Result<Issues, TableFault>
    ensures rows { IfOk result (λ issues. ReadsAll ReadsIssue None (issues_from total (found_of first.now)) (Ok issues.rows)) }
    ensures first { IfOk result (λ issues. issues.first_age ≡ age_of_first (issues_from total (found_of first.now)) (λ issue. issue.label)) }
    ensures places { IfOk result (λ issues. issues.places.items ≡ map (λ issue. issue.at) (issues_from total (found_of first.now))) }
    ensures fault { IfErr result (λ fault. Unless fault
        (ReadsAll ReadsIssue None (issues_from total (found_of first.now)) (Err fault))) }
{
    let mut places = Vec::new(alloc);
    let mut rows = Vec::new(alloc);
    let mut due: Option<u8> = None;
    let mut next = Some(*first);
    while let Some(axis) = next {
        let (age, rates) = read_issue(alloc, &axis, due, total)?;
        push(&mut places, axis.place(total))?;
        push(&mut rows, rates)?;
        due = Some(age + 1);
        next = axis.next_sibling(b"Axis");
    }
    Ok(Issues {
        first_age: age_at(first),
        places,
        rows: SelectRows::new(rows),
    })
}

/// The axis of the first issue age, if the first axis of a table has an axis in it.
#[tactic(auto, unfolding(crate::specs::SelectChecks::issue_axes))]
pub fn first_issue<'a>(axis: &Element<'a>, inner: &Element<'a>) -> Element<'a>
    requires inner { children_at (codes "Axis") (found_of axis.now) ≡ found_of inner.now ∷ siblings_at (codes "Axis") (found_of inner.now) }
    ensures { (total : ℕ) (table : Found)
        → in_first (found_asks total) (codes "Axis") (children_at (codes "Values") table)
        ≡ found_of axis.now ∷ siblings_at (codes "Axis") (found_of axis.now)
        → issue_axes (found_asks total) table (found_of axis.now) ≡ found_of result ∷ siblings_at (codes "Axis") (found_of result) }
{
    match axis.attribute(b"t") {
        Some(_) => *axis,
        None => *inner,
    }
}
