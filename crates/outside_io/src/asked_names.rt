// The names that a shelf was asked for, for contracts alone.
ghost use Rattle.std.specs.Prelude.{◌≡◌, [], ◌∷◌};

use crate::record::Record;
use std::marker::Model;

// Newest first. It has no byte.
#[derive(Drop)]
pub(crate) struct AskedNames {
    record: Record,
}

impl Model for AskedNames {
    ghost use Rattle.std.specs.Prelude.{ℕ, List, map};
    ghost use Rattle.outside_io.specs.inside.Notes.{Note};

    ghost Value = { List (List ℕ) };

    ghost view = { λ asked. map (λ (note : Note). note.name) asked.record.notes };
}

impl AskedNames {
    pub(crate) fn new() -> AskedNames
        ensures { result ≡ [] }
    {
        AskedNames {
            record: Record::new(),
        }
    }

    // The file with this name was asked for.
    #[inline(always)]
    pub(crate) fn note(&mut self, name: &str)
        ensures { self.new ≡ name.now ∷ self.old }
    {
        self.record.note(&[], name.as_bytes(), &[]);
    }
}
