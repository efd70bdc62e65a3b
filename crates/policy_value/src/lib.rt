//! What a policy is worth on a day by a basis and a measure: its row in a valuation.
#![tactic(auto)]

mod cache;
mod columns;
mod covered;
mod key;
mod laws;
mod measures;
mod units;
mod valuing;
mod worth;

pub use cache::ColumnCache;
pub use deficiency_reserve::Adequacy;
pub use key::CacheKey;
pub use laws::covers_by_age_alone;
pub use plan_benefits::NotValued;
pub use valuing::{is_insured, row};
pub use worth::{Measure, Row, Rows, Worth};
