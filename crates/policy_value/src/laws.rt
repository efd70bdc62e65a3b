//! Laws of rows by tables of either kind.

ghost use Rattle.std.specs.Prelude.{◌≡◌, ℕ};
ghost use Rattle.policy_value.specs.Names.{Rates, AShape, cap_of, cover_of};
ghost use Rattle.select_rates.specs.declared.any.AnyTable.TheVariants.{Aggregate};
ghost use Rattle.policy_value.specs.Covers.{cap_along, cover_along};

/// By a table by age alone, the cover is by the rates of that table, and so is the cover that limits its net premium.
pub fn covers_by_age_alone()
    ensures cover { (table : Rates) (shape : AShape) (bp : ℕ) → cover_along (Aggregate table) shape bp ≡ cover_of table shape bp }
    ensures cap { (table : Rates) (age bp : ℕ) → cap_along (Aggregate table) age bp ≡ cap_of table age bp }
{}
