//! Civil days, as days since 1970-01-01: the anniversaries of an issue day, and the texts of days.
//!
//! The calendar's arithmetic is `jiff`'s. Anniversaries and completed years use its core, `jiff_core`, which is
//! faster. `specs/Calendar.antt` states the calendar independently of both.
#![tactic(auto)]

mod calendar;
mod laws;
mod plain;
mod text;
mod years;

pub use laws::{anniversaries_ascend, completed_years_have_come, days_have_dates, texts_are_exact};
pub use text::{parse_day, print_day};
pub use years::{anniversary, completed};
