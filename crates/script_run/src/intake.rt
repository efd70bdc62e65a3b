// What is read from the input.
ghost use Rattle.std.specs.Prelude.{◌≡◌, ◌<◌, ◌≤◌, ℕ, List, Err, IfOk, IsErrOf};
ghost use Rattle.script_run.specs.Names.{Rose, GaveAll, input_between};
ghost use Rattle.script_run.specs.Script.{IsReadAs};
ghost use Rattle.script_run.specs.inside.Unread.{GaveBadRow, GaveTooMany};
ghost use Rattle.script_run.specs.declared.intake.Unread.TheVariants.{BadRow};

use command_csv::{ScriptFault, read_script};
use outside_io::{ReadAllFault, Source, read_all};
use policy_types::{NoMemory, Script};
use std::alloc::Global;

/// The most bytes of a script.
const MOST_SCRIPT_BYTES: u32 = 16_777_216;

/// Why there is no script.
#[derive(Clone, Copy, PartialEq, Eq, Debug)]
pub enum Unread {
    TooLong,
    /// The first row that is no line, and its first bad field.
    BadRow { row: u32, field: u32 },
    ReadFault,
    NoMemory(NoMemory),
}

/// The script on the input, which is read to its end.
pub fn read_lanes<S: Source>(alloc: Global, input: &mut S) -> Result<Script, Unread>
    ensures ok { IfOk result (λ lanes. (bytes : List ℕ) × IsReadAs bytes lanes
        × GaveAll (input_between S.faults S.left S.given S.ended input.old input.new) bytes) }
    ensures too_long { IsErrOf result Unread.TooLong
        → GaveTooMany (input_between S.faults S.left S.given S.ended input.old input.new) }
    ensures bad_row { (row field : ℕ) → result ≡ Err (BadRow row field)
        → GaveBadRow (input_between S.faults S.left S.given S.ended input.old input.new) row field }
    ensures fault { IsErrOf result Unread.ReadFault → Rose (S.faults input.old) (S.faults input.new) }
    ensures counted { S.faults input.old < S.faults input.new → IsErrOf result Unread.ReadFault }
    ensures later { S.faults input.old ≤ S.faults input.new }
{
    let bytes = match read_all(alloc, input, MOST_SCRIPT_BYTES) {
        Ok(bytes) => bytes,
        Err(ReadAllFault::ReadFault) => return Err(Unread::ReadFault),
        Err(ReadAllFault::TooLong) => return Err(Unread::TooLong),
        Err(ReadAllFault::NoMemory(lack)) => return Err(Unread::NoMemory(lack)),
    };
    match read_script(alloc, &bytes) {
        Ok(lanes) => Ok(lanes),
        Err(ScriptFault::BadRow { row, field }) => Err(Unread::BadRow { row, field }),
        Err(ScriptFault::NoMemory(lack)) => Err(Unread::NoMemory(lack)),
    }
}
