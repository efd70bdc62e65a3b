//! Worked merges of two lanes.

ghost use Rattle.policy_machine.specs.Worked.Merges.{DryIsLegal, DryMerge, NoLineLeftOut, NoLineTwice, NoOtherCall, NoOtherOrder, NoOtherPosition, NoOthersLines, NoReadLeftOut, NoSharedCaller, NoStranger, ReadsByPolicies, RefusedMerge, WholeIsLegal, WholeMerge};

/// How many reads a pin has.
pub fn reads_by_policies()
    ensures { ReadsByPolicies }
{}

/// A valuation between postings, with all reads of its pin.
pub fn whole_merge()
    ensures legal { WholeIsLegal }
    ensures merge { WholeMerge }
{}

/// The same if the valuation was refused memory, and only then.
pub fn dry_merge()
    ensures legal { DryIsLegal }
    ensures merge { DryMerge }
    ensures left_out { NoReadLeftOut }
{}

/// Which lines belong to which lane: each lane's, every line once and in order.
pub fn own_lines()
    ensures others { NoOthersLines }
    ensures left_out { NoLineLeftOut }
    ensures twice { NoLineTwice }
    ensures order { NoOtherOrder }
    ensures call { NoOtherCall }
    ensures stranger { NoStranger }
    ensures shared { NoSharedCaller }
{}

/// A valuation whose pin is refused.
pub fn refused_valuation()
    ensures merge { RefusedMerge }
    ensures position { NoOtherPosition }
{}
