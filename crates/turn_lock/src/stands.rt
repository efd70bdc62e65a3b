use policy_types::Entry;

/// A value that turns change, and the history of entries that it stands for.
pub trait Stands {
    ghost use Rattle.std.specs.Prelude.{◌≡◌, List};
    ghost use Rattle.policy_types.specs.declared.entry.Entry.{Entry};

    /// What the value was opened on. No value of this type need ever be made.
    type Opening;

    // What this value was opened on, which no turn changes.
    ghost opening: { Self → Self.Opening };

    // Which histories are legal after an opening.
    ghost legal: { Self.Opening → List Entry → Type 0 };

    // Whether the value stands for a history.
    ghost stands: { Self → List Entry → Type 0 };

    // A history for which the value stands is legal after the value's opening.
    ghost is_legal: { (value : Self) (history : List Entry) → stands value history → legal (opening value) history };
}
