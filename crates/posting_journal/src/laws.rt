// What the definitions of a journal's file have to mean, as functions that do nothing.
ghost use Rattle.std.specs.Prelude.{◌≡◌, ◌⊎◌, ℕ, List};
ghost use Rattle.posting_journal.specs.Creation.{IsForeign, IsBadAt, OpensToBodies};

/// A file opens to one list of bodies at most.
pub fn one_list_of_bodies()
    ensures { (bytes : List ℕ) (bodies others : List (List ℕ)) → OpensToBodies bytes bodies → OpensToBodies bytes others
        → bodies ≡ others }
{}

/// A file that is refused opens to no list of bodies, and is refused for one cause.
pub fn refused_files_open_to_none()
    ensures foreign { (bytes : List ℕ) (bodies : List (List ℕ)) → IsForeign bytes → ¬ OpensToBodies bytes bodies }
    ensures bad { (bytes : List ℕ) (n : ℕ) (bodies : List (List ℕ)) → IsBadAt bytes n → ¬ OpensToBodies bytes bodies }
    ensures one_cause { (bytes : List ℕ) (n : ℕ) → IsForeign bytes → ¬ IsBadAt bytes n }
    ensures one_place { (bytes : List ℕ) (n m : ℕ) → IsBadAt bytes n → IsBadAt bytes m → n ≡ m }
{}

/// A file opens to some bodies, or is refused for a cause that it shows.
pub fn files_open_or_show_why()
    ensures { (bytes : List ℕ) → ((bodies : List (List ℕ)) × OpensToBodies bytes bodies) ⊎ IsForeign bytes
        ⊎ ((n : ℕ) × IsBadAt bytes n) }
{}
