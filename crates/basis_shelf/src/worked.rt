//! Worked shelves, each a theorem over the definitions alone.

ghost use Rattle.basis_shelf.specs.Worked.{BadBasisLines, BasisOfOneRow, FirstBadFiles, NoBadFiles};

/// A basis of one row, the first bad file of four shelves, and the lines that tell of two.
pub fn shelves_by_hand()
    ensures basis { BasisOfOneRow }
    ensures bad { FirstBadFiles }
    ensures none { NoBadFiles }
    ensures lines { BadBasisLines }
{}
