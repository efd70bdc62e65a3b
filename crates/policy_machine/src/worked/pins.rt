//! Worked histories of pins, reads and floors.

ghost use Rattle.policy_machine.specs.Worked.Pins.{Floors, NoNewerRead, NoPinBelowTheFloor, NoReadOfAnothers, NoReadOfGivenUp, NoReadPastTheEnd, NoSeventeenthPin, NoSeventeenthPinAt, NoUnpinOfAnothers, NoUnpinTwice, NotAheadAtTheCount, NotFullOfNoPins, NotTrimmedAtTheFloor, PinnedReads, SixteenPins};

/// What a pin holds stays while others post.
pub fn pinned_reads()
    ensures { PinnedReads }
{}

/// Reads of a pin, and commands that give one up, that are never due.
pub fn pins_not_read()
    ensures newer { NoNewerRead }
    ensures anothers { NoReadOfAnothers }
    ensures anothers_unpinned { NoUnpinOfAnothers }
    ensures given_up { NoReadOfGivenUp }
    ensures twice { NoUnpinTwice }
    ensures past_the_end { NoReadPastTheEnd }
{}

/// The floors that trims set, and what can be pinned at them.
pub fn floors()
    ensures { Floors }
{}

/// Calls that have no reply at a floor.
pub fn not_due_at_floors()
    ensures below { NoPinBelowTheFloor }
    ensures at_the_floor { NotTrimmedAtTheFloor }
    ensures at_the_count { NotAheadAtTheCount }
    ensures no_pins { NotFullOfNoPins }
{}

/// Sixteen pins may be live, and no more.
pub fn sixteen_pins()
    ensures sixteen { SixteenPins }
    ensures pin { NoSeventeenthPin }
    ensures pin_at { NoSeventeenthPinAt }
{}
