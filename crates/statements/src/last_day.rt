// The text of a day, kept for the next call: consecutive policies are often issued on the same day.
ghost use Rattle.std.specs.Prelude.{◌≡◌};
ghost use Rattle.life_dates.specs.Calendar.{IsTermDay};
ghost use Rattle.life_dates.specs.DayText.{day_text};

use life_dates::print_day;

/// The day that was last asked for, and its text.
#[derive(Drop)]
pub(crate) struct LastDay {
    day: i32,
    text: [u8; 10],
    ghost same: { text ≡ day_text day },
}

impl LastDay {
    /// The state as if 1970-01-01 had been asked for.
    pub(crate) fn new() -> LastDay {
        LastDay {
            day: 0,
            text: print_day(0),
        }
    }

    /// The text of a day.
    pub(crate) fn text_of(&mut self, day: i32) -> [u8; 10]
        requires { IsTermDay day }
        ensures { result ≡ day_text day }
    {
        if day != self.day {
            *self = LastDay {
                day,
                text: print_day(day),
            };
        }
        self.text
    }
}
