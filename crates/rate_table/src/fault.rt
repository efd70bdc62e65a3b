/// Why a list of rates is no table. If several reasons apply, the first in this order is returned.
#[derive(Clone, Copy, PartialEq, Eq, Debug)]
pub enum RatesFault {
    /// There is no rate.
    Empty,
    /// The last age would be above 130.
    PastAge130,
    /// The rate at this age, the first such, is above 1.
    RateAboveOne(u8),
}
