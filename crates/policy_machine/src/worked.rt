//! Worked cases of the rules, the histories and the merges, each a theorem over the definitions alone.
#![tactic(auto, unfolding(life_dates::specs::Anniversary::anniversary_of, life_dates::specs::Calendar::day_number, life_dates::specs::Calendar::date_of, life_dates::specs::Calendar::month_of, life_dates::specs::Calendar::days_before_year, life_dates::specs::Calendar::days_of_months))]

pub mod alterations;
pub mod balances;
pub mod claims;
pub mod issues;
pub mod lapses;
pub mod maturities;
pub mod merges;
pub mod paid_ups;
pub mod pins;
pub mod postings;
pub mod premiums;
pub mod reads;
pub mod soundness;
