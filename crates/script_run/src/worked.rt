//! Worked cases of scripts as an input gives them, each a theorem over the definitions alone.

ghost use Rattle.script_run.specs.Worked.{AskedForValues, BadRowText, FailedInput, OneByteTooMany, RefusedRow, ShownInOrder, StoppedShort};

use command_csv::faults_are_placed;

/// Scripts that ask for values or don't, that are too long, or have a row that is no line; an input that failed; what is to
/// be safe of what is shown; and what is written where memory lacks for a line.
pub fn scripts_by_hand()
    ensures values { AskedForValues }
    ensures text { BadRowText }
    ensures long { OneByteTooMany }
    ensures row { RefusedRow }
    ensures failed { FailedInput }
    ensures shown { ShownInOrder }
    ensures short { StoppedShort }
{
    faults_are_placed();
}
