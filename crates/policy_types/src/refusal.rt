use crate::policy::Status;

/// Why a command isn't accepted. The reasons are numbered from 1 in this order. Days are days since 1970-01-01,
/// amounts are cents.
#[derive(Clone, Copy, PartialEq, Eq, Debug)]
pub enum Refusal {
    /// There is already a policy with this number.
    Taken,
    /// There is no policy with this number.
    Unknown,
    /// The day is before the policy's last day, which is given.
    BeforeLast(i32),
    /// The policy's status, which is given, doesn't allow the command.
    WrongStatus(Status),
    /// The term ended on the day given.
    TermOver(i32),
    /// All premiums are paid.
    NothingDue,
    /// The next premium falls due on the day given, which is more than 90 days later.
    TooEarly(i32),
    /// The days of grace of the premium that fell due on the day given are over.
    GraceOver(i32),
    /// The premium that falls due on the day given isn't due yet, or is still in its days of grace.
    NotInArrears(i32),
    /// The last day for the command, which is given, has passed.
    TooLate(i32),
    /// The amount is wrong; the right one is given.
    WrongAmount(u64),
    /// The amount isn't below the policy's amount, which is given.
    NotAReduction(u64),
    /// The term ends on the day given.
    NotMatured(i32),
    /// The amount given is all that is outstanding.
    OverSettled(u64),
    /// The journal holds as many commands as it can.
    Full,
    /// The journal isn't upgraded yet, so no policy can be made paid up.
    NotUpgraded,
    /// The journal was already upgraded, by the command of this number.
    Upgraded(u32),
}
