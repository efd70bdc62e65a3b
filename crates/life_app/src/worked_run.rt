//! A worked run, each part a theorem: it satisfies the premises of the laws, and what they say of it is written here.

ghost use Rattle.life_app.specs.WorkedRun.Calls.{HonestCalls, ReadsByHand};
ghost use Rattle.life_app.specs.WorkedRun.Runs.{CrashesByHand, FoundByHand, ImagesByHand, LeftByHand, OpenedByHand, RanByHand, RowByHand};
ghost use Rattle.life_app.specs.WorkedRun.Promise.{DurableByHand, GivenByHand, HeadlineByHand, LegalByHand, LineByHand, ObeyedByHand, PromisedByHand, ToldOnceSafe};
ghost use Rattle.life_app.specs.WorkedRun.Due.{BasisByHand, DueByHand, DueOfTheRun, NeedsByHand};
ghost use Rattle.life_app.specs.WorkedRun.Both.{DueOfBothByHand, DueOfTheSaving, LeftOfTwoByHand, OtherwiseByHand, PartsOfTwoByHand, RowOfTwoByHand, SavedByHand, StatedByHand, TrustedByHand};
ghost use Rattle.life_app.specs.WorkedRun.Lanes.{LeftLanes, LegalLanes, PromisedLanes, ReopenedLanes};
ghost use Rattle.life_app.specs.WorkedRun.LanesGiven.{AnsweredLanes, DueLanes, GivenLanes, ObeyedLanes};
ghost use Rattle.life_app.specs.WorkedRun.Enclosed.{EnclosedLanes, EnclosedValue, Misprints, PrintedRows};
ghost use Rattle.life_app.specs.WorkedRun.Refused.{CausesByHand, ForgedByHand, TruthByHand, ValuedByHand};
ghost use Rattle.life_app.specs.WorkedRun.Told.{EnclosedByHand, EndedByHand, ModesByHand, ReasonsByHand};

use basis_shelf::shelves_by_hand;
use command_csv::{faults_are_placed, lines_are_written};
use office_state::shown_by_hand;

/// The calls of the file are honest, and it reads as stated; no call was made before the first.
pub fn calls_by_hand()
    ensures honest { HonestCalls }
    ensures reads { ReadsByHand }
    ensures found { FoundByHand }
{}

/// A creation and two postings, a crash in the second, a reopening and a third posting: what ran, what the crash
/// left, and what is left in the end.
pub fn runs_by_hand()
    ensures ran { RanByHand }
    ensures row { RowByHand }
    ensures images { ImagesByHand }
    ensures crashes { CrashesByHand }
    ensures opened { OpenedByHand }
    ensures left { LeftByHand }
{}

/// The script of the third posting is run as promised, and its line is printed once it is safe, and is durable and
/// legally answered.
pub fn promise_by_hand()
    ensures given { GivenByHand }
    ensures obeyed { ObeyedByHand }
    ensures headline { HeadlineByHand }
    ensures promised { PromisedByHand }
    ensures safe { ToldOnceSafe }
    ensures line { LineByHand }
    ensures durable { DurableByHand }
    ensures answered { LegalByHand }
{}

/// Each mode has what it needs, or lacks it, so some ending is due.
pub fn due_by_hand()
    ensures needs { NeedsByHand }
    ensures basis { BasisByHand }
    ensures due { DueByHand }
    ensures comes { DueOfTheRun }
{
    faults_are_placed();
    lines_are_written();
    shelves_by_hand();
    shown_by_hand();
}

/// The same run over both disks, with the books saved in between.
pub fn both_disks_by_hand()
    ensures trusted { TrustedByHand }
    ensures due { DueOfBothByHand }
    ensures comes { DueOfTheSaving }
    ensures saved { SavedByHand }
    ensures stated { StatedByHand }
    ensures otherwise { OtherwiseByHand }
    ensures row { RowOfTwoByHand }
    ensures parts { PartsOfTwoByHand }
    ensures left { LeftOfTwoByHand }
{
    shown_by_hand();
}

/// What follows for the run, and for small values: what a run adds, why a program ends with its status, and an
/// enclosing row.
pub fn told_by_hand()
    ensures ended { EndedByHand }
    ensures modes { ModesByHand }
    ensures reasons { ReasonsByHand }
    ensures enclosed { EnclosedByHand }
{
    lines_are_written();
}

/// Two lanes, from the arguments and the files of the basis on: a premium is refused, two policies are valued by
/// rates while the other lane posts, the disk fails in a posting, and the file is opened again.
pub fn lanes_by_hand()
    ensures given { GivenLanes }
    ensures obeyed { ObeyedLanes }
    ensures answered { AnsweredLanes }
    ensures due { DueLanes }
    ensures legal { LegalLanes }
    ensures promised { PromisedLanes }
    ensures left { LeftLanes }
    ensures reopened { ReopenedLanes }
{}

/// The rows of the two lanes' valuation are printed and right; with a cent more or less, of another policy, of another status, with a
/// word, or of a position before the issue, one isn't. And the row that `value` prints is right.
pub fn values_by_hand()
    ensures printed { PrintedRows }
    ensures enclosed { EnclosedLanes }
    ensures misprints { Misprints }
    ensures value { EnclosedValue }
{}

/// What wrong programs would leave of the script of the third posting is refused by the promise: a made-up cause of another
/// status; and with 0 a forged transcript, a missing answer, nothing posted, a line told too soon, and a file that was unmade on
/// the way. Of a valuation's, that it was told without its rows.
pub fn refused_by_hand()
    ensures causes { CausesByHand }
    ensures truth { TruthByHand }
    ensures forged { ForgedByHand }
    ensures valued { ValuedByHand }
{}
