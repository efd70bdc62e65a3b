ghost use Rattle.std.specs.Prelude.{◌≡◌, Ok, Err, IfOk, IfErr};
ghost use Rattle.xtbml_subset.specs.Answers.{Unless};
ghost use Rattle.xtbml_subset.specs.inside.Parts.{any_parts_of, IsAnyBy};
ghost use Rattle.xtbml_subset.specs.inside.Rows.{found_asks};
ghost use Rattle.xtbml_subset.specs.inside.Searches.{IsFound};
ghost use Rattle.xtbml_subset.specs.inside.Views.{found_of, path_of};

use crate::fault::TableFault;
use crate::found::Element;
use crate::path::ElementPath;
use crate::search::Search;
use crate::select::select_of;
use crate::table::{table_and_axis, table_of};
use select_rates::AnyTable;
use std::alloc::Global;

/// The table of either kind under a root.
pub fn any_of(
    alloc: Global,
    root: &Element<'_>,
    found: &ElementPath<'_>,
    total: u32,
) -> Result<AnyTable, TableFault>
    requires { IsFound (found_of root.now) (path_of found.now) }
    ensures read { IfOk result (λ table. IsAnyBy (any_parts_of (found_asks total) (found_of root.now)) (Ok table)) }
    ensures fault { IfErr result (λ fault. Unless fault (IsAnyBy (any_parts_of (found_asks total) (found_of root.now)) (Err fault))) }
{
    let (table, axis) = table_and_axis(root, found, total)?;
    let Search::Hit(inner) = found.inner else {
        return Ok(AnyTable::Aggregate(table_of(alloc, root, found, total)?));
    };
    let select = select_of(alloc, &table, &axis, &inner, &found.about, total)?;
    Ok(AnyTable::Select(select))
}
