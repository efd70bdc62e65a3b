// What a shelf answered. Only contracts read this.
ghost use Rattle.std.specs.Prelude.{◌≡◌, List, [], ◌∷◌, map};
ghost use Rattle.outside_io.specs.Shelves.{Answer, Found, Absent, TooLong};
ghost use Rattle.outside_io.specs.inside.Notes.{answer_of};

use crate::record::Record;
use std::marker::Model;

const ABSENT: u64 = 0;

const TOO_LONG: u64 = 1;

const FOUND: u64 = 2;

// The newest answer comes first. The value takes no bytes.
#[derive(Drop)]
pub(crate) struct Answers {
    record: Record,
}

impl Model for Answers {
    ghost Value = { List Answer };

    ghost view = { λ answers. map answer_of answers.record.notes };
}

impl Answers {
    pub(crate) fn new() -> Answers
        ensures { result ≡ [] }
    {
        Answers {
            record: Record::new(),
        }
    }

    // The file with this name has these bytes.
    #[inline(always)]
    pub(crate) fn note_found(&mut self, name: &str, bytes: &[u8])
        ensures { self.new ≡ record { name = name.now; told = Found bytes.now } ∷ self.old }
    {
        self.record.note(&[FOUND], name.as_bytes(), bytes);
    }

    // There is no file with this name.
    #[inline(always)]
    pub(crate) fn note_absent(&mut self, name: &str)
        ensures { self.new ≡ record { name = name.now; told = Absent } ∷ self.old }
    {
        self.record.note(&[ABSENT], name.as_bytes(), &[]);
    }

    // The file with this name has too many bytes.
    #[inline(always)]
    pub(crate) fn note_too_long(&mut self, name: &str)
        ensures { self.new ≡ record { name = name.now; told = TooLong } ∷ self.old }
    {
        self.record.note(&[TOO_LONG], name.as_bytes(), &[]);
    }
}
