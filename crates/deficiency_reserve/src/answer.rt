/// How the premium that is charged compares with the modified net premium of the amount.
#[derive(Clone, Copy, PartialEq, Eq, Debug)]
pub enum Adequacy {
    /// It is below the net premium.
    Short,
    /// It isn't below the net premium.
    Enough,
    /// The bounds don't decide: it differs from the net premium by less than one cent.
    Close,
}
