ghost use Rattle.schedule_laws.specs.Prefixes.{PrefixLaw};

/// What a caller has seen of a legal history is legal, and its accepted commands are the first of that history.
pub fn prefix_law()
    ensures { PrefixLaw }
{}
