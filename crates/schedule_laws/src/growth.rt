ghost use Rattle.schedule_laws.specs.Growth.{GrowingBookLaw, IssuedIdsLaw};

/// Policies are in the book in the order of their issues, and stay in their places.
pub fn growing_book_law()
    ensures ids { IssuedIdsLaw }
    ensures grows { GrowingBookLaw }
{}
