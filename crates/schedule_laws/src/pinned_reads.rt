ghost use Rattle.schedule_laws.specs.PinnedReads.{LivePinLaw, PinnedReadLaw, ReadLaw, WholePinnedReadLaw};

/// A live pin's position is from the floor up to the count of commands.
pub fn live_pin_law()
    ensures { LivePinLaw }
{}

/// A read of a pin has the policies of the book at the pin's position, whatever was posted since.
pub fn read_law()
    ensures { ReadLaw }
{}

/// The reads of a pin, put together, are the book at its position, and the first of them are a prefix of it.
pub fn pinned_read_law()
    ensures front { PinnedReadLaw }
    ensures whole { WholePinnedReadLaw }
{}
