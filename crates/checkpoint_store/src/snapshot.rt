// What a checkpoint holds.
use money_ledgers::Ledger;
use policy_types::Slice;

/// The books after so many accepted commands.
#[derive(Drop)]
pub struct Snapshot {
    /// How many commands were accepted.
    pub position: u32,
    /// The place of the upgrade among them, counted from 1, or 0.
    pub upgrade: u32,
    /// The balances of the four accounts, in cents.
    pub ledger: Ledger,
    /// The policies in order of issue.
    pub book: Slice,
}
