ghost use Rattle.std.specs.Prelude.{◌≡◌};
ghost use Rattle.policy_value.specs.Measures.{no_reserve};

use deficiency_reserve::Adequacy;
use plan_benefits::NotValued;
use policy_types::{Listed, Status};

/// Which reserve is asked for.
#[derive(Clone, Copy, PartialEq, Eq, Debug)]
pub enum Measure {
    /// The reserve at the end of the last completed policy year.
    Terminal,
    /// The mean of the two terminal reserves around the policy year, plus half of its net premium.
    Mean,
    /// The terminal reserve, together with the minimum reserve if the premium that is charged is short.
    Deficiency,
}

/// How much a policy's future benefits are worth above its future premiums.
#[derive(Clone, Copy, PartialEq, Eq, Debug)]
pub enum Worth {
    /// A lower and an upper bound of the reserve, in cents.
    Bounds {
        lo: u64,
        hi: u64,
    },
    /// The same, and bounds of the minimum reserve, in cents; and how the premium that is charged compares with the
    /// net premium.
    Both {
        lo: u64,
        hi: u64,
        min_lo: u64,
        min_hi: u64,
        test: Adequacy,
    },
    /// Why there is no reserve.
    Word(NotValued),
}

impl Worth {
    /// The worth of a policy that isn't insured.
    pub(crate) fn nothing(measure: Measure) -> Worth
        ensures { result ≡ no_reserve measure }
    {
        match measure {
            Measure::Terminal | Measure::Mean => Worth::Bounds { lo: 0, hi: 0 },
            Measure::Deficiency => Worth::Both {
                lo: 0,
                hi: 0,
                min_lo: 0,
                min_hi: 0,
                test: Adequacy::Enough,
            },
        }
    }
}

/// A policy in a valuation.
#[derive(Clone, Copy, PartialEq, Eq, Debug)]
pub struct Row {
    pub id: u32,
    pub status: Status,
    /// The completed policy years of the reserve, at most the years of cover.
    pub t: u8,
    pub worth: Worth,
}

/// The rows of a valuation, in order of issue.
pub type Rows = Listed<Row>;
