ghost use Rattle.std.specs.Prelude.{◌≡◌, ℕ, ◌+◌, ◌*◌, ◌^◌, ◌<◌, ◌≤◌, ◌++◌, ◌∷◌, [], List, length, min};
ghost use Rattle.std.specs.Char.{IsAsciiDigit};
ghost use Rattle.std.specs.Str.Parse.{AllDigits};

/// One more than the number of units of 10^-9 in 1. A count that would be larger stays at this value.
pub const CAP: u64 = 1_000_000_001;

/// Units of 10^-9, counted from the digits of a decimal from left to right.
#[derive(Drop)]
pub struct Units {
    /// The whole units so far, counted in the place that the digits have reached.
    pub count: u64,
    /// How many more places there are down to that of 10^-9.
    pub places: usize,
    /// Whether every digit past that place is 0.
    pub is_exact: bool,
    ghost capped: { count ≤ 1000000001 },
}

impl Units {
    ghost use Rattle.decimal_text.specs.inside.Places.{Counts};

    fn push(&mut self, digit: u8)
        requires { IsAsciiDigit digit }
        ensures { (places : ℕ) (seen : List ℕ) → Counts places seen self.old → Counts places (seen ++ digit ∷ []) self.new }
    {
        if self.places > 0 {
            self.places -= 1;
            self.count = (self.count * 10 + u64::from(digit - b'0')).min(CAP);
        } else if digit != b'0' {
            self.is_exact = false;
        }
    }

    pub fn push_all(&mut self, digits: &[u8])
        requires { AllDigits 10 digits.now }
        ensures { (places : ℕ) (seen : List ℕ) → Counts places seen self.old → Counts places (seen ++ digits.now) self.new }
    {
        for digit in digits {
            self.push(*digit);
        }
    }

    /// The units, if zeros stand in the remaining places.
    pub fn total(&self) -> u64
        ensures { result ≡ min (self.now.count * 10 ^ self.now.places) 1000000001 }
    {
        let mut total = self.count;
        for _ in 0..self.places {
            total = (total * 10).min(CAP);
        }
        total
    }
}
