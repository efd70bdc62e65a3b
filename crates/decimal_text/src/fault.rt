/// Why a text is no rate.
#[derive(Clone, Copy, PartialEq, Eq, Debug)]
pub enum RateFault {
    /// The text isn't a decimal number.
    NoNumber,
    /// The number is above 1.
    AboveOne,
    /// The number is at most 1, but no multiple of 10^-9.
    TooFine,
}
