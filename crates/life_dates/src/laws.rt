// Laws of the definitions, for callers.
ghost use Rattle.std.specs.Prelude.{◌≡◌, ℕ, ◌<◌, ◌≤◌, ◌↔◌, List, ℤ, ◌<ℤ◌, ◌≤ℤ◌};
ghost use Rattle.life_dates.specs.Calendar.{Date, IsDate, IsDay, IsTermDay, date_of, day_number};
ghost use Rattle.life_dates.specs.Anniversary.{anniversary_of, IsCompleted};
ghost use Rattle.life_dates.specs.DayText.{day_text, IsDayText};

/// Each day from 1900 to 2399 has one date of the calendar.
pub fn days_have_dates()
    ensures date { (day : ℤ) → IsTermDay day
        → IsDate (date_of day) × (day_number (date_of day) ≡ day) }
    ensures only { (date : Date) → IsDate date → IsTermDay (day_number date)
        → date_of (day_number date) ≡ date }
{}

/// Anniversary 0 is the issue day itself, later anniversaries are on later days, and the 134th is no later than the
/// end of the year 2399.
pub fn anniversaries_ascend()
    ensures first { (issued : ℤ) → IsDay issued → anniversary_of issued 0 ≡ issued }
    ensures ascend { (issued : ℤ) (t u : ℕ) → IsDay issued → t < u → u ≤ 134
        → anniversary_of issued t <ℤ anniversary_of issued u }
    ensures last { (issued : ℤ) (t : ℕ) → IsDay issued → t ≤ 134
        → IsTermDay (anniversary_of issued t) }
{}

/// The anniversaries, up to the 131st, that have come by a day are those up to the number of completed years.
pub fn completed_years_have_come()
    ensures { (issued on : ℤ) (t u : ℕ) → IsDay issued → IsCompleted issued on t → u ≤ 131
        → ((anniversary_of issued u ≤ℤ on) ↔ (u ≤ t)) }
{}

/// What is printed for a day is a text of that day, and the day has no other text.
pub fn texts_are_exact()
    ensures printed { (day : ℤ) → IsTermDay day → IsDayText (day_text day) day }
    ensures only { (text : List ℕ) (day : ℤ) → IsTermDay day → IsDayText text day
        → text ≡ day_text day }
{}
