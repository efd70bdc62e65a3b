// The values of some items in a list of their own, and two such lists one after the other.
ghost use Rattle.std.specs.Prelude.{◌≡◌, ◌≤◌, ◌<◌, IfOk, length};
ghost use Rattle.std.specs.List.{AllByRecursion, AllZip};
ghost use Rattle.std.specs.Mem.{type_size};
ghost use Rattle.parallel_value.specs.Pieces.{AreBoth, IsAsBefore};

use crate::Piece;
use memory_requests::{NoMemory, append, push};
use std::alloc::Global;

// The values of the items by one worker.
pub(crate) fn map_alone<I, O: Drop, P: Piece<I, O>>(
    alloc: Global,
    piece: &mut P,
    items: &[I],
) -> Result<Vec<O>, NoMemory>
    requires sized { 1 ≤ type_size O.row }
    requires taken { AllByRecursion (P.takes piece.old) items.now }
    ensures values { IfOk result (λ values. AllZip (P.gives piece.old) items.now values.items) }
    ensures piece { IsAsBefore P.takes P.gives piece.old piece.new }
{
    let mut values = Vec::new(alloc);
    for item in items {
        push(&mut values, piece.one(item))?;
    }
    Ok(values)
}

// Both lists, one after the other.
pub(crate) fn both<O: Drop>(
    front: Result<Vec<O>, NoMemory>,
    back: Result<Vec<O>, NoMemory>,
) -> Result<Vec<O>, NoMemory>
    requires sized { 1 ≤ type_size O.row }
    ensures { IfOk result (λ values. AreBoth front back values.items) }
{
    let mut front = front?;
    let mut back = back?;
    append(&mut front, &mut back)?;
    Ok(front)
}
