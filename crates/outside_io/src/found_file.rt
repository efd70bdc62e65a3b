// What a file was when the program found it, which no code of the program reads.
ghost use Rattle.std.specs.Prelude.{ℕ, List, [], Option, None};

/// What a file was before the first call, and what failed writes make of it. No code reads any of this, so what is
/// proved over every `FoundFile` holds whatever the file was.
pub trait FoundFile: Drop + Send {
    /// The name under which the file was found, if it is stated. Only a disk of this name can be made of it.
    ghost name: { Option (List ℕ) };

    /// What it read as before the first call.
    ghost bytes: { List ℕ };

    /// What else a crash before the first call might have left: writes of an earlier run that weren't made safe.
    ghost unsynced: { List ℕ → Type 0 };

    /// What it reads as after a write that failed, by the number of calls before that.
    ghost torn: { ℕ → List ℕ };
}

/// Some file, for the places at which a running program has to name one.
#[derive(Clone, Copy, Debug)]
pub struct AnyFile;

impl FoundFile for AnyFile {
    ghost name = { None };

    ghost bytes = { [] };

    ghost unsynced = { λ image. ⊥ };

    ghost torn = { λ calls. [] };
}
