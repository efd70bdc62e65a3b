//! Worked histories of postings, and what an office can be opened on.

ghost use Rattle.policy_machine.specs.Worked.Postings.{FaultAtTheLastCount, Faults, FullAtTheLimit, NoFaultOfARefusal, NoFaultOfTheOpening, NoFaultTwice, NoGap, NoOpeningOnInvalid, NoOpeningOnRefused, NoOpeningPastTheLimit, NoOtherRefusal, NoPositionTwice, NoRefusal, NotFullBefore, OpensOnAccepted, PositionsGoOn, RulesBeforeFull};

/// An accepted command has the next position.
pub fn positions()
    ensures go_on { PositionsGoOn }
    ensures gap { NoGap }
    ensures twice { NoPositionTwice }
{}

/// A fault of the disk answers one posting, and leaves the book as it was.
pub fn faults()
    ensures faults { Faults }
    ensures opening { NoFaultOfTheOpening }
    ensures twice { NoFaultTwice }
    ensures last { FaultAtTheLastCount }
{}

/// A refusal is the reply exactly to what the rules refuse.
pub fn refusals()
    ensures fault { NoFaultOfARefusal }
    ensures other { NoOtherRefusal }
    ensures none { NoRefusal }
{}

/// The office is full at 4,000,000 commands.
pub fn full()
    ensures at_the_limit { FullAtTheLimit }
    ensures before { NotFullBefore }
    ensures rules { RulesBeforeFull }
{}

/// An office can be opened on accepted commands.
pub fn openings()
    ensures accepted { OpensOnAccepted }
    ensures refused { NoOpeningOnRefused }
    ensures invalid { NoOpeningOnInvalid }
    ensures limit { NoOpeningPastTheLimit }
{}
