/// What a policy of amount 1 pays and is paid, by policy year.
///
/// A death in one of the first `n` years pays 1 at the end of the year of death. If `matures` is set, a survivor at
/// the end of year `n` is paid 1. Premiums are due at the start of each of the first `h` years.
#[derive(Clone, Copy, PartialEq, Eq, Debug)]
pub struct Shape {
    /// The age at issue, in years.
    pub age: u8,
    /// The years of cover.
    pub n: u8,
    /// The years in which a premium is due.
    pub h: u8,
    /// Whether a survivor of all the years of cover is paid.
    pub matures: bool,
}
