/// Why a policy has no value. If several reasons apply, the first in this order is returned.
#[derive(Clone, Copy, PartialEq, Eq, Debug)]
pub enum NotValued {
    /// No table is named for the day of issue.
    NoBasis,
    /// The age at issue is below the table's first age.
    BelowTable,
    /// The table ends before the cover, or within two years.
    PastTable,
    /// The rate of death in the first year is above one half.
    RateHigh,
}
