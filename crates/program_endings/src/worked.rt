//! Worked cases of endings, lines and replies, each a theorem over the definitions alone.

ghost use Rattle.program_endings.specs.Worked.{AnsweredOrNot, GivenAndLeft, LegalIssue, LinesAreWhole, LinesOfRefusals, NoLegalFirst, NothingLegal, RefusesHello, StatusesOfEndings, WantsAndFaults, WithoutABasis};

use outside_io::Disk;

/// Each ending has its status.
pub fn statuses_of_endings()
    ensures { StatusesOfEndings }
{}

/// What is a line that was written, and what isn't.
pub fn lines_that_were_written()
    ensures whole { LinesAreWhole }
    ensures refusals { LinesOfRefusals }
    ensures input { GivenAndLeft }
{}

/// What the replies of a few turns say of how a run ends.
pub fn replies_of_a_few_turns()
    ensures answered { AnsweredOrNot }
    ensures wants { WantsAndFaults }
{}

/// How a mode ends without a basis.
pub fn ends_without_a_basis()
    ensures { WithoutABasis }
{}

/// Over any disk, a file of five bytes that are no journal.
pub fn a_file_that_is_no_journal<D: Disk>()
    ensures { RefusesHello D.Disk }
{}

/// The history of one posting, over an office that was opened on one command, or on what none can be opened on.
pub fn a_legal_history()
    ensures issue { LegalIssue }
    ensures first { NoLegalFirst }
    ensures nothing { NothingLegal }
{}
