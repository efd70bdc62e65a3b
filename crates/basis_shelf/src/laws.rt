// What the definitions have to mean, as functions that do nothing.
ghost use Rattle.std.specs.Prelude.{◌≡◌, ◌⊎◌, ℕ, List, Option, Err};
ghost use Rattle.rate_table.specs.Rates.{Rates};
ghost use Rattle.basis_shelf.specs.Names.{AnyTable, TableKind, IsAnyAnswer, SpellsAny, Dated};
ghost use Rattle.xtbml_subset.specs.declared.fault.TableFault.TheVariants.{Bad};
ghost use Rattle.xtbml_subset.specs.Answers.{IsTableAnswer, SpellsTable};
ghost use Rattle.basis_shelf.specs.declared.fault.BadBasis.{BadBasis};
ghost use Rattle.basis_shelf.specs.Bases.{HasTable, IsBasis, IsTableNamed};
ghost use Rattle.basis_shelf.specs.FirstBad.{IsBadTable, IsFirstBadFile};
ghost use Rattle.basis_shelf.specs.declared.fault.BasisWord.{BasisWord};

/// A name has one basis at most, or one first bad file, and never both.
pub fn a_basis_has_one_answer()
    ensures basis { (files : List ℕ → Option (List ℕ)) (name : List ℕ) (one other : List Dated)
        → IsBasis files name one → IsBasis files name other → one ≡ other }
    ensures bad { (files : List ℕ → Option (List ℕ)) (name : List ℕ) (one other : BadBasis)
        → IsFirstBadFile files name one → IsFirstBadFile files name other → one ≡ other }
    ensures not_both { (files : List ℕ → Option (List ℕ)) (name : List ℕ) (entries : List Dated) (bad : BadBasis)
        → IsBasis files name entries → IsFirstBadFile files name bad → ⊥ }
{}

/// A file spells one table at most, and no table where it is bad.
pub fn a_file_has_one_answer()
    ensures table { (files : List ℕ → Option (List ℕ)) (name : List ℕ) (one other : AnyTable)
        → IsTableNamed files name one → IsTableNamed files name other → one ≡ other }
    ensures not_both { (files : List ℕ → Option (List ℕ)) (name : List ℕ) (number place : ℕ) (word : BasisWord)
        → HasTable files name → IsBadTable files name number word place → ⊥ }
{}

/// The bytes of a file spell a table, or have a first fault, at a place: of either kind, and by age alone.
pub fn files_spell_or_show_why()
    ensures any { (bytes : List ℕ) → ((table : AnyTable) × SpellsAny bytes table)
        ⊎ ((at : ℕ) × (kind : TableKind) × IsAnyAnswer bytes (Err (Bad at kind))) }
    ensures aggregate { (bytes : List ℕ) → ((table : Rates) × SpellsTable bytes table)
        ⊎ ((at : ℕ) × (kind : TableKind) × IsTableAnswer bytes (Err (Bad at kind))) }
{}

/// A shelf has a basis at a name, or a first bad file: its name, the place and what is wrong there.
pub fn shelves_have_a_basis_or_show_why()
    ensures { (files : List ℕ → Option (List ℕ)) (name : List ℕ) → ((entries : List Dated) × IsBasis files name entries)
        ⊎ ((bad : BadBasis) × IsFirstBadFile files name bad) }
{}
