ghost use Rattle.std.specs.Prelude.{◌≡◌, ℕ, ◌≤◌, ◌⊎◌, ◌∷◌, length, IfOk, OnOk, IfErr, Ok, Err, Result, Some, None};
ghost use Rattle.xtbml_subset.specs.Names.{Rates, AnyTable};
ghost use Rattle.xtbml_subset.specs.declared.fault.TableFault.{TableFault};
ghost use Rattle.xtbml_subset.specs.Answers.{SpellsTable, IsTableAnswer, Gives, Unless};
ghost use Rattle.xtbml_subset.specs.AnyChecks.{SpellsAny, IsAnyAnswer, GivesAny, SaysSelect, aggregated};
ghost use Rattle.xtbml_subset.specs.declared.fault.TableFault.TheVariants.{Bad};
ghost use Rattle.xtbml_subset.specs.declared.fault.TableKind.TheVariants.{NotDocument};
ghost use Rattle.xtbml_subset.specs.inside.Elements.{depth_in, elements_at};
ghost use Rattle.xtbml_subset.specs.inside.Searches.{IsFound};
ghost use Rattle.xtbml_subset.specs.inside.Views.{found_of, path_of};
ghost use Rattle.xtbml_subset.specs.inside.Walk.{fault_at};

use crate::any::any_of;
use crate::fault::{TableFault, TableKind};
use crate::found::Element;
use crate::nesting::survey;
use crate::path::ElementPath;
use crate::search::Search;
use crate::table::table_of;
use rate_table::RateTable;
use select_rates::AnyTable;
use std::alloc::Global;

/// The table that a file spells: the rates, in units of 10^-9, for the ages of its `Y`. Memory is asked for only for
/// the rates.
///
/// # Errors
///
/// What is wrong first, and its place in bytes from the start of the file; or that memory was refused.
pub fn read_table(alloc: Global, bytes: &[u8]) -> Result<RateTable, TableFault>
    requires { length bytes.now ≤ 4194304 }
    // What is read is spelled by the file.
    ensures table { IfOk result (λ table. SpellsTable bytes.now table) }
    // What the file spells is read, unless memory is refused.
    ensures read { (table : Rates) → SpellsTable bytes.now table → Gives result (Ok table) }
    // A fault is the one that is due.
    ensures fault { IfErr result (λ fault. Unless fault (IsTableAnswer bytes.now (Err fault))) }
    // Whatever result is due is returned, unless memory is refused.
    ensures due { (answer : Result Rates TableFault) → IsTableAnswer bytes.now answer → Gives result answer }
{
    let (root, path) = document_of(bytes)?;
    table_of(alloc, &root, &path, bytes.len() as u32)
}

/// The table that a file spells, by age alone or by issue age and duration: the rates, in units of 10^-9, of the `Y`
/// of its first `Table`, and, if the first axis of that has an axis in it, the ultimate rates of its second `Table`.
/// Memory is asked for only for the table.
///
/// # Errors
///
/// What is wrong first, and its place in bytes from the start of the file; or that memory was refused.
pub fn read_any(alloc: Global, bytes: &[u8]) -> Result<AnyTable, TableFault>
    requires { length bytes.now ≤ 4194304 }
    // What is read is spelled by the file.
    ensures table { IfOk result (λ table. SpellsAny bytes.now table) }
    // What the file spells is read, unless memory is refused.
    ensures read { (table : AnyTable) → SpellsAny bytes.now table → GivesAny result (Ok table) }
    // A fault is the one that is due.
    ensures fault { IfErr result (λ fault. Unless fault (IsAnyAnswer bytes.now (Err fault))) }
    // Whatever result is due is returned, unless memory is refused.
    ensures due { (answer : Result AnyTable TableFault) → IsAnyAnswer bytes.now answer → GivesAny result answer }
    // The result that is due from `read_table` is returned here too, unless it is that the rates depend on the
    // duration.
    ensures aggregate { (answer : Result Rates TableFault) → IsTableAnswer bytes.now answer
        → SaysSelect answer ⊎ GivesAny result (aggregated answer) }
{
    let (root, path) = document_of(bytes)?;
    any_of(alloc, &root, &path, bytes.len() as u32)
}

// The root of the document that a file is, and the elements on the path to its table.
fn document_of(bytes: &[u8]) -> Result<(Element<'_>, ElementPath<'_>), TableFault>
    requires { length bytes.now ≤ 4194304 }
    ensures document { OnOk result (None ≡ fault_at bytes.now) }
    ensures root { IfOk result (λ found. let root = found_of found.0 in
        elements_at 0 None bytes.now ≡ root ∷ elements_at (depth_in root.is_open) None root.rest) }
    ensures path { IfOk result (λ found. IsFound (found_of found.0) (path_of found.1)) }
    ensures fault { IfErr result (λ fault. (at : ℕ) × (Some at ≡ fault_at bytes.now) × (fault ≡ Bad at NotDocument)) }
{
    let path = match survey(bytes) {
        Ok(path) => path,
        Err(at) => {
            return Err(TableFault::Bad {
                at: at as u32,
                kind: TableKind::NotDocument,
            });
        }
    };
    let Search::Hit(root) = path.root else {
        unreachable!()
    };
    Ok((root, path))
}
