ghost use Rattle.std.specs.Prelude.{◌≡◌, ◌↔◌, ◌+◌, ◌*◌, ◌<◌, ◌≤◌};
ghost use Rattle.deficiency_reserve.specs.Names.{Between, UNIT, Cover, beta};
ghost use Rattle.deficiency_reserve.specs.Premiums.{Tells, adequacy_by};
ghost use Rattle.deficiency_reserve.specs.declared.answer.Adequacy.TheVariants.{Short, Enough};

use crate::answer::Adequacy;
use present_value::UNITS_IN_ONE;

/// Whether a premium in cents is below the modified net premium of an amount in cents, by bounds of this premium per
/// unit of amount, in units of 10^-16.
pub fn adequacy(beta_lo: u64, beta_hi: u64, amount: u64, premium: u64) -> Adequacy
    requires insured { 1 ≤ amount }
    requires amount { amount ≤ 10000000000 }
    requires premium { premium ≤ 10000000000 }
    ensures rounded { result ≡ adequacy_by beta_lo beta_hi amount premium }
    ensures short { result ≡ Short ↔ premium * UNIT < amount * beta_lo }
    ensures enough { beta_lo ≤ beta_hi → (result ≡ Enough ↔ amount * beta_hi ≤ premium * UNIT) }
    ensures means { (c cap : Cover) → Between beta_lo beta_hi UNIT (beta c cap) → beta_hi ≤ beta_lo + 100000
        → Tells result (beta c cap) amount premium }
{
    let charged = premium as u128 * UNITS_IN_ONE as u128;
    if charged < amount as u128 * beta_lo as u128 {
        Adequacy::Short
    } else if charged >= amount as u128 * beta_hi as u128 {
        Adequacy::Enough
    } else {
        Adequacy::Close
    }
}
