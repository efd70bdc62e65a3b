//! Worked basis files, each a theorem over the definitions alone.

ghost use Rattle.basis_book.specs.Worked.{BadBasisRows, FallingDays, ManyRows, NoBasisRows, ThreeBasisRows};

/// A basis of three rows, and one of none.
pub fn a_basis_by_hand()
    ensures three { ThreeBasisRows }
    ensures none { NoBasisRows }
{}

/// A file of each fault.
pub fn refused_bases_by_hand()
    ensures bad { BadBasisRows }
    ensures falling { FallingDays }
    ensures many { ManyRows }
{}
