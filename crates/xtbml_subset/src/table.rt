ghost use Rattle.std.specs.Prelude.{◌≡◌, ◌==◌, ◌||◌, ℕ, ◌+◌, ◌≤◌, [], ◌∷◌, List, length, IfOk, IfErr, MatchResult, MatchBool, Ok, Err, codes};
ghost use Rattle.std.specs.Option.{option_copied, ForSome};
ghost use Rattle.xtbml_subset.specs.Checks.{in_first, factor_of, ReadsRates, IsUnscaled, IsScale};
ghost use Rattle.xtbml_subset.specs.inside.Parts.{within, path, rates_of, parts_of, IsTableBy};
ghost use Rattle.xtbml_subset.specs.inside.Elements.{children_at, siblings_at};
ghost use Rattle.xtbml_subset.specs.inside.Searches.{hit, IsFirstIn, IsFound};
ghost use Rattle.xtbml_subset.specs.inside.Rows.{found_asks, rows_from};
ghost use Rattle.xtbml_subset.specs.Answers.{Unless};
ghost use Rattle.xtbml_subset.specs.inside.Views.{found_of, found_result, found_pair, path_of, sought_of};

use crate::class::Class;
use crate::fault::{TableFault, TableKind};
use crate::found::Element;
use crate::path::ElementPath;
use crate::row::{age_at, rate_in, read_rows};
use crate::search::Search;
use crate::text::skip;
use rate_table::RateTable;
use std::alloc::Global;

/// The element that was found, or a fault at the element in which it is missing.
fn within<'a>(
    parent: &Element<'a>,
    search: &Search<'a>,
    total: u32,
) -> Result<Element<'a>, TableFault>
    ensures found { IfOk result (λ child. sought_of search.now ≡ hit (found_of child)) }
    ensures within { (name : List ℕ) → IsFirstIn name (found_of parent.now) (sought_of search.now)
        → found_result result ≡ within (found_asks total) name (found_of parent.now) }
{
    match search {
        Search::Hit(child) => Ok(*child),
        Search::Seeking | Search::Missed => Err(TableFault::Bad {
            at: parent.place(total),
            kind: TableKind::NoTable,
        }),
    }
}

/// The first table, and the first axis of its values.
#[tactic(auto, unfolding(crate::specs::inside::Parts::path))]
pub fn table_and_axis<'a>(
    root: &Element<'a>,
    found: &ElementPath<'a>,
    total: u32,
) -> Result<(Element<'a>, Element<'a>), TableFault>
    requires { IsFound (found_of root.now) (path_of found.now) }
    ensures pair { found_pair result ≡ path (found_asks total) (found_of root.now) }
    ensures table { IfOk result (λ pair. sought_of found.now.table ≡ hit (found_of pair.0)) }
    ensures axis { IfOk result (λ pair. sought_of found.now.axis ≡ hit (found_of pair.1)) }
    ensures values { IfOk result (λ pair. in_first (found_asks total) (codes "Axis") (children_at (codes "Values") (found_of pair.0))
        ≡ found_of pair.1 ∷ siblings_at (codes "Axis") (found_of pair.1)) }
{
    if root.tag.name != b"XTbML".as_slice() {
        return Err(TableFault::Bad {
            at: root.place(total),
            kind: TableKind::NoTable,
        });
    }
    let table = within(root, &found.table, total)?;
    let values = within(&table, &found.values, total)?;
    let axis = within(&values, &found.axis, total)?;
    Ok((table, axis))
}

/// The first rate of an axis that has rates of its own.
#[tactic(auto, unfolding(crate::specs::inside::Parts::rates_of))]
fn check_axis<'a>(
    axis: &Element<'a>,
    found: &ElementPath<'a>,
    total: u32,
) -> Result<Element<'a>, TableFault>
    requires inner { IsFirstIn (codes "Axis") (found_of axis.now) (sought_of found.now.inner) }
    requires first { IsFirstIn (codes "Y") (found_of axis.now) (sought_of found.now.first) }
    ensures first { IfOk result (λ first.
        children_at (codes "Y") (found_of axis.now) ≡ found_of first ∷ siblings_at (codes "Y") (found_of first)) }
    ensures rates { MatchResult result
        (λ _. rates_of (found_asks total) (found_of axis.now) ≡ Ok (children_at (codes "Y") (found_of axis.now)))
        (λ fault. rates_of (found_asks total) (found_of axis.now) ≡ Err fault) }
{
    if let Search::Hit(inner) = found.inner {
        return Err(TableFault::Bad {
            at: inner.place(total),
            kind: TableKind::Select,
        });
    }
    match found.first {
        Search::Hit(first) => Ok(first),
        Search::Seeking | Search::Missed => Err(TableFault::Bad {
            at: axis.place(total),
            kind: TableKind::NoTable,
        }),
    }
}

/// Whether a factor leaves the rates as they are.
fn is_unscaled(text: Option<&[u8]>) -> bool
    requires { ForSome text (λ t. length t.now ≤ 4194304) }
    ensures { MatchBool result (IsUnscaled (option_copied text.entry)) (IsUnscaled (option_copied text.entry) → ⊥) }
{
    let Some(content) = text else {
        return false;
    };
    if skip(content, Class::White).is_empty() {
        return true;
    }
    match rate_in(Some(content)) {
        Some(rate) => is_unit(rate),
        None => false,
    }
}

fn is_unit(rate: u32) -> bool
    ensures { result ≡ (rate == 0 || rate == 1000000000) }
{
    rate == 0 || rate == 1_000_000_000
}

/// Whether the factor of a table leaves its rates as they are.
#[tactic(auto, unfolding(crate::specs::Checks::factor_of))]
pub fn check_scale(table: &Element<'_>, about: &Search<'_>, total: u32) -> Result<(), TableFault>
    requires { IsFirstIn (codes "MetaData") (found_of table.now) (sought_of about.now) }
    ensures { IsScale (factor_of (found_asks total) (found_of table.now ∷ [])) result }
{
    let Search::Hit(about) = about else {
        return Ok(());
    };
    let Some(factor) = about.first_child(b"ScalingFactor") else {
        return Ok(());
    };
    if is_unscaled(factor.text()) {
        Ok(())
    } else {
        Err(TableFault::Bad {
            at: factor.place(total),
            kind: TableKind::Scaled,
        })
    }
}

/// The rates from the first of an axis on, as a table; how many there are is given.
pub fn rates_table(
    alloc: Global,
    first: &Element<'_>,
    count: usize,
    total: u32,
) -> Result<RateTable, TableFault>
    requires { 1 + length (siblings_at (codes "Y") (found_of first.now)) ≡ count }
    ensures read { IfOk result (λ table. ReadsRates (rows_from total (found_of first.now)) (Ok table)) }
    ensures fault { IfErr result (λ fault. Unless fault (ReadsRates (rows_from total (found_of first.now)) (Err fault))) }
{
    let rates = read_rows(alloc, first, count, total)?;
    match RateTable::new(age_at(first), rates) {
        Ok(table) => Ok(table),
        Err(_) => unreachable!(),
    }
}

/// The table under a root.
pub fn table_of(
    alloc: Global,
    root: &Element<'_>,
    found: &ElementPath<'_>,
    total: u32,
) -> Result<RateTable, TableFault>
    requires { IsFound (found_of root.now) (path_of found.now) }
    ensures read { IfOk result (λ table. IsTableBy (parts_of (found_asks total) (found_of root.now)) (Ok table)) }
    ensures fault { IfErr result (λ fault. Unless fault (IsTableBy (parts_of (found_asks total) (found_of root.now)) (Err fault))) }
{
    let (table, axis) = table_and_axis(root, found, total)?;
    let first = check_axis(&axis, found, total)?;
    check_scale(&table, &found.about, total)?;
    rates_table(alloc, &first, found.tally.count, total)
}
