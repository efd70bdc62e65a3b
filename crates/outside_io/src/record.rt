// Notes that only contracts read.
ghost use Rattle.std.specs.Prelude.{◌≡◌, List, [], ◌∷◌};
ghost use Rattle.std.specs.Borrow.{ftrue};
ghost use Rattle.outside_io.specs.inside.Notes.{Note};

use std::marker::{Model, PhantomData};

// What was noted, newest first. It takes no bytes, and noting does nothing when the program runs.
#[derive(Drop)]
pub(crate) struct Record {
    marker: PhantomData<u8>,
    pub ghost notes: { List Note },
}

impl Model for Record {
    ghost also_owns = { λ _. ftrue };
}

// It owns nothing.
unsafe impl Send for Record {}

impl Record {
    pub(crate) fn new() -> Record
        ensures { result.notes ≡ [] }
    {
        Record {
            marker: PhantomData,
        }
    }

    #[inline(always)]
    pub(crate) fn note(&mut self, _numbers: &[u64], _name: &[u8], _bytes: &[u8])
        ensures { self.new.notes ≡ record { numbers = _numbers.now; name = _name.now; bytes = _bytes.now } ∷ self.old.notes }
    {}
}
