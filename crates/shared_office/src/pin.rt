use office_state::Held;
use std::marker::Model;

/// A pinned position in its caller's hands. It must be spent by giving it up.
pub struct Pin {
    held: Held,
}

impl Model for Pin {
    ghost use Rattle.office_state.specs.declared.held.Held.{Held};

    ghost Value = { Held };

    ghost view = { λ p. p.held };
}

impl Pin {
    ghost use Rattle.std.specs.Prelude.{◌≡◌};

    pub(crate) fn of(held: Held) -> Pin
        ensures { result ≡ held }
    {
        Pin { held }
    }

    /// The place of its turn in the history, from 0.
    pub fn number(&self) -> u64
        ensures { result ≡ self.now.number }
    {
        self.held.number
    }

    /// How many accepted commands it holds.
    pub fn position(&self) -> u32
        ensures { result ≡ self.now.position }
    {
        self.held.position
    }

    /// How many policies these leave.
    pub fn policies(&self) -> u32
        ensures { result ≡ self.now.policies }
    {
        self.held.policies
    }

    pub(crate) fn held(&self) -> Held
        ensures { result ≡ self.now }
    {
        self.held
    }

    pub(crate) fn spend(self) {
        let Pin { held: _ } = self;
    }
}
