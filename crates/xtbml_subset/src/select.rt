ghost use Rattle.std.specs.Prelude.{◌≡◌, ◌∷◌, Ok, Err, IfOk, IfErr, codes};
ghost use Rattle.xtbml_subset.specs.Answers.{Unless};
ghost use Rattle.xtbml_subset.specs.Checks.{in_first};
ghost use Rattle.xtbml_subset.specs.inside.Elements.{children_at, siblings_at};
ghost use Rattle.xtbml_subset.specs.inside.Parts.{IsSelectBy, select_parts};
ghost use Rattle.xtbml_subset.specs.inside.Rows.{found_asks};
ghost use Rattle.xtbml_subset.specs.inside.Searches.{IsFirstIn};
ghost use Rattle.xtbml_subset.specs.inside.Views.{found_of, sought_of};

use crate::fault::{TableFault, TableKind};
use crate::found::Element;
use crate::issue::{Issues, first_issue, read_issues};
use crate::search::Search;
use crate::table::check_scale;
use crate::ultimate::{check_ultimate_scale, first_gap, first_ultimate, read_ultimate};
use select_rates::SelectTable;
use std::alloc::Global;

/// The select table of a table whose first axis has an axis in it.
pub fn select_of(
    alloc: Global,
    table: &Element<'_>,
    axis: &Element<'_>,
    inner: &Element<'_>,
    about: &Search<'_>,
    total: u32,
) -> Result<SelectTable, TableFault>
    requires about { IsFirstIn (codes "MetaData") (found_of table.now) (sought_of about.now) }
    requires axis { in_first (found_asks total) (codes "Axis") (children_at (codes "Values") (found_of table.now))
        ≡ found_of axis.now ∷ siblings_at (codes "Axis") (found_of axis.now) }
    requires inner { children_at (codes "Axis") (found_of axis.now) ≡ found_of inner.now ∷ siblings_at (codes "Axis") (found_of inner.now) }
    ensures read { IfOk result (λ select. IsSelectBy (select_parts
        (found_asks total) (siblings_at (codes "Table") (found_of table.now)) (found_of table.now) (found_of axis.now)) (Ok select)) }
    ensures fault { IfErr result (λ fault. Unless fault (IsSelectBy (select_parts
        (found_asks total) (siblings_at (codes "Table") (found_of table.now)) (found_of table.now) (found_of axis.now)) (Err fault))) }
{
    check_scale(table, about, total)?;
    let second = table.next_sibling(b"Table");
    check_ultimate_scale(second, total)?;
    let issues = read_issues(alloc, &first_issue(axis, inner), total)?;
    let ultimate = read_ultimate(alloc, first_ultimate(second), table.place(total), total)?;
    let Issues {
        first_age,
        places,
        rows,
    } = issues;
    if let Some(at) = first_gap(&ultimate, first_age, places.as_slice(), &rows) {
        return Err(TableFault::Bad {
            at,
            kind: TableKind::UltimateGap,
        });
    }
    Ok(SelectTable::new(alloc, first_age, rows, ultimate)?)
}
