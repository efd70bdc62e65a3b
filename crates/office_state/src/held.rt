use arrayvec::ArrayVec;

/// The most pins that may be live.
pub(crate) const MOST_PINS: usize = 16;

/// What a caller learns of a pin that it took.
#[derive(Clone, Copy, PartialEq, Eq, Debug)]
pub struct PinInfo {
    /// The pin's number: the turns before its own.
    pub number: u64,
    /// The commands that it holds.
    pub position: u32,
    /// The policies that these leave.
    pub policies: u32,
}

/// A live pin, and the caller who holds it.
#[derive(Clone, Copy, PartialEq, Eq, Debug, Default)]
pub struct Held {
    /// The pin's number: the turns before its own.
    pub number: u64,
    pub caller: u64,
    /// The commands that it holds.
    pub position: u32,
    /// The policies that these leave.
    pub policies: u32,
}

/// The live pins, in order of their numbers.
pub(crate) type Pins = ArrayVec<Held, MOST_PINS>;
