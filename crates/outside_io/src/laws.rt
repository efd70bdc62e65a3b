// Worked cases of the records of a file and of a shelf, as functions that do nothing.
ghost use Rattle.std.specs.Prelude.{◌≡◌, ℕ, ◌≤◌, Bool, true, false, Some, None, List, [], ◌∷◌, ◌++◌, length};
ghost use Rattle.outside_io.specs.FileCalls.{FileCall, Measured, ReadFrom, WrittenTo, Synced, file_reads, AreAllowed, FileImage};
ghost use Rattle.outside_io.specs.Shelves.{Files, Answer, Found, Absent, Told, Agrees};

/// A file that is made, written, made safe and read back, and whose answers are those of an honest one.
pub fn an_honest_file()
    ensures allowed { (torn : ℕ → List ℕ) → AreAllowed [] torn
        (ReadFrom 1 2 (Some (8 ∷ 9 ∷ [])) ∷ Measured (Some 3) ∷ Synced true ∷ WrittenTo 0 (7 ∷ 8 ∷ 9 ∷ []) true
        ∷ Measured (Some 0) ∷ []) }
    // Before the sync a crash may leave other bytes, and fewer; after it, only those that were written.
    ensures unsafe_before { (torn : ℕ → List ℕ)
        → FileImage [] torn (λ image. ⊥) (WrittenTo 0 (7 ∷ 8 ∷ 9 ∷ []) true ∷ []) (1 ∷ 2 ∷ []) }
    ensures safe_after { (torn : ℕ → List ℕ) (image : List ℕ)
        → FileImage [] torn (λ image. ⊥) (Synced true ∷ WrittenTo 0 (7 ∷ 8 ∷ 9 ∷ []) true ∷ []) image
        → image ≡ 7 ∷ 8 ∷ 9 ∷ [] }
    // But not after a sync that failed, since the system may then have dropped the bytes.
    ensures unsafe_after_failed { (torn : ℕ → List ℕ)
        → FileImage [] torn (λ image. ⊥) (Synced true ∷ Synced false ∷ WrittenTo 0 (7 ∷ 8 ∷ 9 ∷ []) true ∷ []) (1 ∷ 2 ∷ []) }
{}

/// A file that reads otherwise than it was written isn't honest, and neither is one that reports another length.
pub fn a_dishonest_file()
    ensures read { (first : List ℕ) (torn : ℕ → List ℕ) (earlier : List FileCall) (at : ℕ) (bytes given : List ℕ)
        → at ≤ length (file_reads first torn earlier)
        → AreAllowed first torn (ReadFrom at (length bytes) (Some given) ∷ Synced true ∷ WrittenTo at bytes true ∷ earlier)
        → given ≡ bytes }
    ensures length { (torn : ℕ → List ℕ)
        → AreAllowed [] torn (Measured (Some 2) ∷ WrittenTo 0 (7 ∷ 8 ∷ 9 ∷ []) true ∷ []) → ⊥ }
{}

/// Two different answers of a shelf to one name agree with no files.
pub fn a_shelf_has_one_answer_to_a_name()
    ensures bytes { (files : Files) (name one other : List ℕ) (between earlier : List Answer)
        → Agrees (record { name = name; told = Found one } ∷ between ++ record { name = name; told = Found other } ∷ earlier) files
        → one ≡ other }
    ensures absent { (files : Files) (name bytes : List ℕ) (between earlier : List Answer)
        → Agrees (record { name = name; told = Absent } ∷ between ++ record { name = name; told = Found bytes } ∷ earlier) files
        → ⊥ }
{}
