use basis_book::Name;
use policy_types::At;
use policy_value::Measure;

/// What the arguments ask for.
#[derive(Drop)]
pub enum Mode {
    /// To run the script on the input.
    Run {
        /// The name of the basis file.
        basis: Name,
    },
    /// To value the policies on a day.
    Value {
        /// The day, in days since 1970-01-01.
        on: i32,
        /// The position of the journal.
        at: At,
        workers: u8,
        /// The name of the basis file.
        basis: Name,
        /// The reserve that is asked for.
        measure: Measure,
    },
    /// To write what the policies are expected to pay and to be paid, for `years` policy years from the one of this
    /// day on.
    Project {
        /// The day, in days since 1970-01-01.
        on: i32,
        years: u8,
        workers: u8,
        /// The name of the basis file.
        basis: Name,
    },
    /// To write all policies and the balances, or the entries of the policy of this number.
    State {
        id: Option<u32>,
    },
    /// To save the books of the journal on the second disk.
    Checkpoint,
    /// To write the script of `count` policies drawn from the seed, assigned to the lanes in turn.
    Generate {
        seed: u32,
        count: u32,
        lanes: u8,
    },
    /// To run that script, and then to value all policies. The basis file is `basis.csv`.
    Load {
        seed: u32,
        count: u32,
        lanes: u8,
        workers: u8,
    },
}
